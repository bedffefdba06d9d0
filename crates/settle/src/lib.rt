// Commit, abort, reset and evict: document 01's rules, with what each is refused for.
//
// Every function here is proved. The four public ones have no `requires`, and give what the step without the test of the house rules gives, on every machine.
// The crate assumes nothing.
#![tactic(auto)]

ghost use Rattle.std.specs.Prelude.{◌≡◌, ◌&&◌, suc, eqb, ltb};
ghost use Rattle.std.specs.List.{list_any};
ghost use Rattle.rules.specs.declared.Op.TheVariants.{Commit, Abort, Reset, Evict};
ghost use Rattle.rules.specs.declared.Answer.TheVariants.{Done};
ghost use Rattle.rules.specs.States.{top};
ghost use Rattle.rules.specs.Machine.{write, gives};
ghost use Rattle.rules.specs.Abort.{abort_of};
ghost use Rattle.rules.specs.Reset.{reset_of, unsettled};
ghost use Rattle.rules.specs.Evict.{spare, evict_of};
ghost use Rattle.rules.specs.Step.{rule_of};

use moves::{Change, change, change_all, line_at, put_in, refused};
use rules::{Answer, Answered, Cache, Line, Machine, Pos, Reason, State};

// A step that is done, with the machine after it.
fn done(machine: Machine) -> Answered
    ensures { result ≡ gives Done machine }
{
    Answered {
        answer: Answer::Done,
        machine,
    }
}

// ---- commit

// Is the VID one more than LCVID? On a machine that is not sound LCVID + 1 may not fit, so LCVID is compared with VID - 1.
fn is_next(lcvid: u16, vid: u16) -> bool
    ensures { result ≡ eqb vid (suc lcvid) }
{
    vid.checked_sub(1) == Some(lcvid)
}

// LCVID becomes the VID. Nothing else changes.
#[tactic(auto, unfolding(rules::specs::Step::rule_of, rules::specs::Commit::commit_of, rules::specs::Machine::with_lcvid))]
pub fn commit(machine: Machine, vid: u64) -> Answered
    ensures { result ≡ rule_of machine (Commit vid) }
{
    if 64 <= vid {
        return refused(machine, Reason::VidTooLarge);
    }
    let vid = vid as u16;
    if !is_next(machine.lcvid, vid) {
        return refused(machine, Reason::VidNotNext);
    }
    done(Machine {
        lcvid: vid,
        ..machine
    })
}

// ---- abort

// S-S lines drop; other speculative lines that LCVID hits become M or E, the rest drop; plain lines and LCVID stay.
#[tactic(auto, unfolding(rules::specs::Abort::abort_of))]
fn aborted(machine: Machine) -> Machine
    ensures { result ≡ abort_of machine }
{
    let lcvid = machine.lcvid;
    change(machine, Change::Abort { lcvid })
}

#[tactic(auto, unfolding(rules::specs::Step::rule_of))]
pub fn abort(machine: Machine) -> Answered
    ensures { result ≡ rule_of machine Abort }
{
    done(aborted(machine))
}

// ---- reset

// S-M becomes M, S-E becomes E, both with VIDs 0, 0; S-O and S-S drop; LCVID becomes 0 and a new flight begins.
#[tactic(auto, unfolding(rules::specs::Reset::reset_of, rules::specs::Machine::with_lcvid))]
fn new_flight(machine: Machine) -> Machine
    ensures { result ≡ reset_of machine }
{
    let next = change(machine, Change::Reset);
    Machine { lcvid: 0, ..next }
}

// Some S-M or S-E of a cache has h above LCVID.
fn any_unsettled_in(cache: &Cache, lcvid: u16) -> bool
    ensures { result ≡ list_any (λ l. top l.state && ltb lcvid l.h) cache.now.lines }
{
    cache
        .lines
        .iter()
        .any(|line| line.state.is_top() && lcvid < line.h)
}

// The same of all caches.
fn any_unsettled(machine: &Machine) -> bool
    ensures { result ≡ unsettled machine.now }
{
    machine
        .caches
        .iter()
        .any(|cache| any_unsettled_in(cache, machine.lcvid))
}

// Refused where a line is not settled.
#[tactic(auto, unfolding(rules::specs::Step::rule_of))]
pub fn reset(machine: Machine) -> Answered
    ensures { result ≡ rule_of machine Reset }
{
    if any_unsettled(&machine) {
        return refused(machine, Reason::NotSettled);
    }
    done(new_flight(machine))
}

// ---- evict

// E, S, S-S: its word is held elsewhere too.
fn is_spare(state: State) -> bool
    ensures { result ≡ spare state }
{
    matches!(state, State::E | State::S | State::SS)
}

// A line's word to memory. On a machine that is not sound its address may be past the end: nothing is written then.
#[tactic(auto, unfolding(rules::specs::Machine::write))]
fn write_back(machine: &mut Machine, line: Line)
    ensures { machine.new ≡ write line.address line.word machine.old }
{
    let memory = machine.memory.as_mut_slice();
    let at = usize::from(line.address);
    if at < memory.len() {
        memory[at] = line.word;
    }
}

// What an eviction does, by the line in the slot.
#[tactic(auto, unfolding(rules::specs::Evict::evict_of, rules::specs::Evict::settled_out, rules::specs::Evict::with_shares, rules::specs::Machine::drop))]
fn evicted(machine: Machine, place: Pos) -> Answered
    ensures { result ≡ evict_of machine place }
{
    let line = line_at(machine, place);
    let lcvid = machine.lcvid;
    let mut next = machine;
    // Dead, E, S, S-S: emptied.
    if line.is_dead(lcvid) || is_spare(line.state) {
        put_in(&mut next, place, Line::empty());
        return done(next);
    }
    // M, O: word to memory, emptied.
    if line.state.is_dirty() {
        put_in(&mut next, place, Line::empty());
        write_back(&mut next, line);
        return done(next);
    }
    // S-M or S-E with h up to LCVID: S-S lines with that m and address drop; emptied; S-M writes its word to memory, S-E has none to write.
    if line.state.is_top() && line.h <= lcvid {
        let Line { address: x, m, .. } = line;
        change_all(&mut next, Change::DropShares { x, m });
        put_in(&mut next, place, Line::empty());
        if line.state == State::SM {
            write_back(&mut next, line);
        }
        return done(next);
    }
    // Any other S-M, S-E or live S-O: overflow, the machine aborts and nothing more is done.
    Answered {
        answer: Answer::Overflow,
        machine: aborted(machine),
    }
}

// Refused where there is no such slot, or nothing in it.
#[tactic(auto, unfolding(rules::specs::Step::rule_of))]
pub fn evict(machine: Machine, cache: usize, slot: usize) -> Answered
    ensures { result ≡ rule_of machine (Evict cache slot) }
{
    if machine.count <= cache {
        return refused(machine, Reason::NoSuchCache);
    }
    if 15 < slot {
        return refused(machine, Reason::SlotTooLarge);
    }
    let place = Pos { cache, slot };
    if line_at(machine, place).state == State::I {
        return refused(machine, Reason::SlotEmpty);
    }
    evicted(machine, place)
}
