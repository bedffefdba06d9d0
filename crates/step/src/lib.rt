// The machine's one step, the rule without the test of the house rules, and a fresh machine.
//
// Every function here is proved to give what its definition in `rules` says, for every machine and every step handed in: none has a `requires`, and the machine that
// a refused call hands back is in the contract too. The crate assumes nothing.
#![tactic(auto)]

ghost use Rattle.std.specs.Prelude.{◌≡◌};
ghost use Rattle.rules.specs.Machine.{fresh, make_of};
ghost use Rattle.rules.specs.Step.{rule_of, step_of};

use moves::refused;
use rules::{Answer, Answered, Cache, Line, Machine, Op, Reason};

// ---- a fresh machine

#[tactic(auto, unfolding(rules::specs::Machine::fresh))]
fn fresh(count: usize, memory: [u64; 64]) -> Machine
    ensures { result ≡ fresh count memory }
{
    Machine {
        caches: [Cache {
            lines: [Line::empty(); 16],
        }; 4],
        count,
        lcvid: 0,
        memory,
    }
}

// A fresh machine with the words given; where the caches are not 1 to 4, refusal 1, and a machine of one cache with zero memory.
#[tactic(auto, unfolding(rules::specs::Machine::make_of))]
pub fn make(count: usize, memory: [u64; 64]) -> Answered
    ensures { result ≡ make_of count memory }
{
    if !(1..=4).contains(&count) {
        return refused(fresh(1, [0; 64]), Reason::CacheCount);
    }
    Answered {
        answer: Answer::Done,
        machine: fresh(count, memory),
    }
}

// ---- a step

// The step without the test of the house rules, for a caller that holds a sound machine; on every other machine too it gives what its definition says.
pub fn rule(machine: Machine, op: Op) -> Answered
    ensures { result ≡ rule_of machine op }
{
    match op {
        Op::Load { cache, vid, at } => access::load(machine, cache, vid, at),
        Op::Store {
            cache,
            vid,
            at,
            data,
        } => access::store(machine, cache, vid, at, data),
        Op::Commit { vid } => settle::commit(machine, vid),
        Op::Abort => settle::abort(machine),
        Op::Reset => settle::reset(machine),
        Op::Evict { cache, slot } => settle::evict(machine, cache, slot),
    }
}

// Refusal 2 where the machine is not sound, and else the rule.
#[tactic(auto, unfolding(rules::specs::Step::step_of))]
pub fn step(machine: Machine, op: Op) -> Answered
    ensures { result ≡ step_of machine op }
{
    if !sound::is_sound(machine) {
        return refused(machine, Reason::NotSound);
    }
    rule(machine, op)
}
