// Load and store, plain and with a VID: document 01's rules, with what loads and stores are refused for.
//
// A load or store that passes the checks looks once over all lines (`ask`), plans what to do from what it saw, and carries the plan out.
// Every function here is proved. The two public ones have no `requires`, and give what the step without the test of the house rules gives, on every machine.
// The crate assumes nothing.
#![tactic(auto)]

mod ask;
mod checks;
mod loads;
mod look;
mod plans;
mod stores;

ghost use Rattle.std.specs.Prelude.{◌≡◌};
ghost use Rattle.rules.specs.declared.Op.TheVariants.{Load, Store};
ghost use Rattle.rules.specs.Step.{rule_of};

use ask::ask;
use moves::refused;
use plans::carry;
use rules::{Answered, Machine};
use stores::misspeculation;

// A load of the address `at` by a cache, plain where `vid` is 0.
#[tactic(auto, using(crate::proofs::Asks::barred), unfolding(rules::specs::Step::rule_of))]
pub fn load(machine: Machine, cache: usize, vid: u64, at: u64) -> Answered
    ensures { result ≡ rule_of machine (Load cache vid at) }
{
    match ask(&machine, cache, vid, at) {
        Ok(asked) => carry(machine, asked.access.cache, asked.load_plan()),
        Err(reason) => refused(machine, reason),
    }
}

// The store of `word` at the address `at` by a cache, plain where `vid` is 0.
#[tactic(auto, using(crate::proofs::Asks::barred), unfolding(rules::specs::Step::rule_of))]
pub fn store(machine: Machine, cache: usize, vid: u64, at: u64, word: u64) -> Answered
    ensures { result ≡ rule_of machine (Store cache vid at word) }
{
    let asked = match ask(&machine, cache, vid, at) {
        Ok(asked) => asked,
        Err(reason) => return refused(machine, reason),
    };
    let Ok(owner) = asked.search_owner() else {
        return misspeculation(machine);
    };
    carry(machine, asked.access.cache, asked.store_plan(owner, word))
}
