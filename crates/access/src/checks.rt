// What a load or store is refused for before its rule is tried, and the number that it acts with.
ghost use Rattle.std.specs.Prelude.{◌≡◌};
ghost use Rattle.rules.specs.Step.{acts_with};
ghost use Rattle.access.specs.Checks.{judged};

use rules::{Machine, Reason};

// A refusal under 2 (LCVID is no VID), 3, 4, 6 or 7, or none.
#[tactic(auto, unfolding(crate::specs::Checks::judged))]
pub fn judge(machine: &Machine, cache: usize, vid: u64, at: u64) -> Result<(), Reason>
    ensures { result ≡ judged machine.now.count machine.now.lcvid cache vid at }
{
    if machine.lcvid >= 64 {
        return Err(Reason::NotSound);
    }
    if cache >= machine.count {
        return Err(Reason::NoSuchCache);
    }
    if at > 63 {
        return Err(Reason::AddressTooLarge);
    }
    if vid >= 64 {
        return Err(Reason::VidTooLarge);
    }
    if vid != 0 && vid <= u64::from(machine.lcvid) {
        return Err(Reason::VidPast);
    }
    Ok(())
}

// A plain access acts with LCVID, another with its VID.
pub fn acts_with(lcvid: u16, vid: u16) -> u16
    ensures { result ≡ acts_with lcvid vid }
{
    if vid == 0 { lcvid } else { vid }
}
