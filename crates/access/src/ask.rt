// What a load or store asks, and what it sees, once it has passed the checks.
ghost use Rattle.std.specs.Prelude.{◌≡◌};
ghost use Rattle.access.specs.Ask.{asked_of};
ghost use Rattle.access.specs.Plan.{held_word};

use crate::checks::{acts_with, judge};
use crate::look::{Access, Seen, look};
use rules::{Machine, Reason};

// An access, and what memory and the look tell of its address.
#[derive(Clone, Copy)]
pub struct Asked {
    pub access: Access,
    pub memory: u64,
    pub seen: Seen,
}

impl Asked {
    // The word of the address's plain lines, else memory's.
    pub fn plain_word(&self) -> u64
        ensures { result ≡ held_word self.now.seen.plain self.now.memory }
    {
        self.seen.plain.map_or(self.memory, |held| held.line.word)
    }
}

// The checks, and then one look over all lines. The address and the VID are below 64 behind the checks, and fit.
#[tactic(auto, using(crate::proofs::Verdicts::passed), unfolding(crate::specs::Ask::asked_of, rules::specs::Machine::memory_at))]
pub fn ask(machine: &Machine, cache: usize, vid: u64, at: u64) -> Result<Asked, Reason>
    ensures { result ≡ asked_of machine.now cache vid at }
{
    judge(machine, cache, vid, at)?;
    let access = Access {
        cache,
        vid: vid != 0,
        a: acts_with(machine.lcvid, vid as u16),
        x: at as u16,
    };
    Ok(Asked {
        access,
        memory: machine.memory[at as usize],
        seen: look(machine, access),
    })
}
