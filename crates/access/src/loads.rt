// The plan of a load, with a VID or plain: the owner's word where speculative lines of the address live, and else the two cases without one.
ghost use Rattle.std.specs.Prelude.{◌≡◌, ◌<◌, Some, None};
ghost use Rattle.std.specs.Bool.{then_some};
ghost use Rattle.rules.specs.declared.Answer.TheVariants.{Value};
ghost use Rattle.rules.specs.Line.{line};
ghost use Rattle.rules.specs.Machine.{at, find, memory_at};
ghost use Rattle.rules.specs.Load.{is_own_share, is_dirty, read_by, plain_data, load_of, load_owned, load_new, load_plain};
ghost use Rattle.access.specs.declared.plans.Places.TheVariants.{One};
ghost use Rattle.access.specs.Look.{own_plain, any_plain, held};
ghost use Rattle.access.specs.Plan.{Carries, AnyCarries, Sees, Holds, held_word};

use crate::ask::Asked;
use crate::look::Access;
use crate::plans::{Places, Plan};
use moves::Change;
use rules::{Answer, Held, Line, State};

impl Asked {
    // The load that was asked for. Where a sound machine has no owner for `a`, no speculative line of the address lives.
    #[tactic(auto, using(crate::proofs::Found::sights))]
    pub fn load_plan(&self) -> Plan
        requires { self.now.access.a < 64 }
        ensures { Carries (Sees self.now) (λ μ. load_of μ self.now.access.vid self.now.access.cache self.now.access.a self.now.access.x 0) self.now.access.cache result }
    {
        match self.seen.owner {
            Some(owner) => self.load_owned(owner),
            None if self.access.vid => self.load_first(),
            None => self.load_plain(),
        }
    }

    // ---- speculative lines live, and `owner` is the owner

    // The asker holds the owner, or an S-S that hits, or places one: S-S (m, a + 1) with the owner's word.
    #[tactic(auto, using(crate::proofs::Found::away_held, crate::proofs::Carried::owner_read, crate::proofs::Carried::answering_gives, crate::proofs::Carried::stay_changes), unfolding(crate::specs::Plan::carried, rules::specs::Load::load_owned, rules::specs::Data::read, rules::specs::Machine::drop))]
    fn load_owned(&self, owner: Held) -> Plan
        requires { self.now.access.a < 64 }
        ensures { Carries (λ μ. Holds μ (is_own_share self.now.access.cache self.now.access.x self.now.access.a) self.now.seen.share × (owner.line ≡ at μ owner.place)) (λ μ. load_owned μ self.now.access.vid self.now.access.cache self.now.access.a self.now.access.x 0 owner.place) self.now.access.cache result }
    {
        let Access { cache, a, x, .. } = self.access;
        let Held { place, line } = owner;
        let read = Plan {
            put: self.after_read(owner),
            ..Plan::answering(Answer::Value(line.word))
        };
        if place.cache == cache {
            return read;
        }
        if let Some(share) = self.seen.share {
            return Plan::answering(Answer::Value(share.line.word));
        }
        let m = line.m;
        let new = Line {
            state: State::SS,
            address: x,
            m,
            h: a + 1,
            word: line.word,
        };
        Plan {
            change: Change::DropStale { cache, x, m },
            places: Places::One(new),
            ..read
        }
    }

    // What is put in the slot of the owner that was read: a plain load leaves it as it is.
    fn after_read(&self, owner: Held) -> Option<Held>
        ensures { result ≡ then_some self.now.access.vid (held owner.place (read_by self.now.access.a owner.line)) }
    {
        self.access.vid.then_some(Held {
            place: owner.place,
            line: read_by(self.access.a, owner.line),
        })
    }

    // ---- no speculative line lives

    // The load has a VID: all lines of the address drop, and the asker places S-M (0, a) if one was M or O, else S-E (0, a).
    #[tactic(auto, unfolding(crate::specs::Plan::carried, rules::specs::Load::load_new, rules::specs::Data::read, rules::specs::Machine::drop))]
    fn load_first(&self) -> Plan
        ensures { AnyCarries (λ c μ. (self.now.seen.dirty ≡ is_dirty μ self.now.access.x) × (held_word self.now.seen.plain self.now.memory ≡ plain_data μ self.now.access.x)) (λ c μ. load_new μ c self.now.access.a self.now.access.x 0) result }
    {
        let Access { a, x, .. } = self.access;
        let word = self.plain_word();
        let new = Line {
            state: if self.seen.dirty {
                State::SM
            } else {
                State::SE
            },
            address: x,
            m: 0,
            h: a,
            word,
        };
        Plan {
            change: Change::DropOf { x },
            places: Places::One(new),
            ..Plan::answering(Answer::Value(word))
        }
    }

    // The load is plain: a plain line of the asker gives the value, and nothing changes.
    // Cached elsewhere: M becomes O, E becomes S, and the asker places S. Else it places E from memory.
    #[tactic(auto, using(crate::proofs::Found::plain_held, crate::proofs::Carried::answering_gives, crate::proofs::Carried::stay_changes), unfolding(crate::specs::Plan::carried))]
    fn load_plain(&self) -> Plan
        ensures { AnyCarries (λ c μ. Holds μ (own_plain c self.now.access.x) self.now.seen.own × (Holds μ (any_plain self.now.access.x) self.now.seen.plain × (self.now.memory ≡ memory_at μ self.now.access.x))) (λ c μ. load_plain μ c self.now.access.x 0 (find (own_plain c self.now.access.x) μ)) result }
    {
        if let Some(own) = self.seen.own {
            return Plan::answering(Answer::Value(own.line.word));
        }
        match self.seen.plain {
            Some(plain) => {
                let word = plain.line.word;
                let change = Change::Demote { x: self.access.x };
                self.place_plain(Answer::Value(word), State::S, word, change)
            },
            None => {
                let word = self.memory;
                self.place_plain(Answer::Value(word), State::E, word, Change::Stay)
            },
        }
    }

    // The asker answers, and places a plain line with the word, after a change.
    pub fn place_plain(&self, answer: Answer, state: State, word: u64, change: Change) -> Plan
        ensures { result ≡ record { answer = answer; put = None; change = change; places = One (line state self.now.access.x 0 0 word) } }
    {
        let new = Line {
            state,
            address: self.access.x,
            m: 0,
            h: 0,
            word,
        };
        Plan {
            change,
            places: Places::One(new),
            ..Plan::answering(answer)
        }
    }
}

// An owner in S-M or S-E takes the larger of h and a as its h.
#[tactic(auto, unfolding(rules::specs::Load::read_by))]
fn read_by(a: u16, owner: Line) -> Line
    ensures { result ≡ read_by a owner }
{
    if owner.state.is_top() {
        Line {
            h: owner.h.max(a),
            ..owner
        }
    } else {
        owner
    }
}
