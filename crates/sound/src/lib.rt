// The check of the house rules: whether a machine that is handed in is sound.
//
// `is_sound` is proved to give what `is_sound` of `rules` says, on any machine whatsoever, and the crate assumes nothing.
#![tactic(auto)]

mod fits;
mod seen;
mod table;

ghost use Rattle.std.specs.Prelude.{◌≡◌, ◌&&◌, ◌<◌, ℕ, false, leb, ltb, MatchOption};
ghost use Rattle.std.specs.List.{list_all, range_with_len};
ghost use Rattle.rules.specs.HouseTest.{is_sound};
ghost use Rattle.sound.specs.Numbered.{held_no, slot_no, stands_no, Chained};

use fits::slot_fits;
use rules::{Held, Machine, Pos};
use seen::Seen;

// The cache count is 1 to 4, and LCVID at most 63.
fn numbers_fit(machine: &Machine) -> bool
    ensures { result ≡ (leb 1 machine.now.count && (leb machine.now.count 4 && ltb machine.now.lcvid 64)) }
{
    (1..=4).contains(&machine.count) && machine.lcvid < 64
}

// The line in slot i.
#[tactic(auto, unfolding(rules::specs::Machine::at))]
fn held(machine: &Machine, i: usize) -> Held
    requires { i < 64 }
    ensures { result ≡ held_no machine.now i }
{
    let place = Pos {
        cache: i / 16,
        slot: i % 16,
    };
    Held {
        place,
        line: machine.caches[place.cache].lines[place.slot],
    }
}

// The live lines of each address, chained: the lowest of them stands in slot `first[address]`, and the next one after slot i in slot `next[i]`.
// Slot s of cache c is number 16 c + s.
#[derive(Clone, Copy)]
struct Chains {
    first: [Option<u8>; 64],
    next: [Option<u8>; 64],
}

impl Chains {
    // Those of a machine where each slot fits by itself. From the last slot down, so that they go up.
    #[tactic(auto, unfolding(rules::specs::HouseTest::slot_fits))]
    fn of(machine: &Machine) -> Option<Chains>
        ensures { MatchOption result ((i : ℕ) × (i < 64) × (slot_no machine.now i ≡ false)) (λ chains. Chained machine.now 0 chains) }
    {
        let mut chains = Chains {
            first: [None; 64],
            next: [None; 64],
        };
        for i in (0..64).rev() {
            let l = held(machine, i);
            if !slot_fits(machine, l) {
                return None;
            }
            if l.line.is_live(machine.lcvid) {
                let x = l.line.address as usize;
                chains.next[i] = chains.first[x];
                chains.first[x] = Some(i as u8);
            }
        }
        Some(chains)
    }

    // The line in slot i, if it lives, stands among the lines of its address.
    #[tactic(auto, using(crate::proofs::Chaining::small))]
    fn stands(&self, machine: &Machine, i: usize) -> bool
        requires slot { i < 64 }
        requires chained { Chained machine.now 0 self.now }
        ensures { result ≡ stands_no machine.now i }
    {
        let k = held(machine, i);
        if !k.line.is_live(machine.lcvid) {
            return true;
        }
        let x = k.line.address as usize;
        let mut seen = Seen::NOTHING;
        let mut at = self.first[x];
        while let Some(j) = at {
            seen.see(machine.lcvid, k, held(machine, j as usize));
            at = self.next[j as usize];
        }
        seen.suffices(k.line, machine.memory[x])
    }

    // Each live line stands among the lines of its address.
    fn all_stand(&self, machine: &Machine) -> bool
        requires { Chained machine.now 0 self.now }
        ensures { result ≡ list_all (stands_no machine.now) (range_with_len 0 64) }
    {
        (0..64).all(|i| self.stands(machine, i))
    }
}

// The machine keeps the house rules, whatever its numbers are.
pub fn is_sound(machine: Machine) -> bool
    ensures { result ≡ is_sound machine }
{
    if !numbers_fit(&machine) {
        return false;
    }
    let Some(chains) = Chains::of(&machine) else {
        return false;
    };
    chains.all_stand(&machine)
}
