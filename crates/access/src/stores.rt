// The plan of a store, with a VID or plain.
//
// A store first looks for the owner, and misspeculates or goes on. Only a store that goes on places lines, so that misspeculation comes before refusal 11.
ghost use Rattle.std.specs.Prelude.{◌≡◌, false, cond, ◌&&◌, eqb, Ok};
ghost use Rattle.rules.specs.declared.Answer.TheVariants.{Misspec};
ghost use Rattle.rules.specs.States.{is_sm};
ghost use Rattle.rules.specs.Line.{empty};
ghost use Rattle.rules.specs.Machine.{at, gives};
ghost use Rattle.rules.specs.Abort.{abort_of};
ghost use Rattle.rules.specs.Load.{plain_data};
ghost use Rattle.rules.specs.Store.{misspeculates, version, closed, store_new, store_owned, store_m, store_of};
ghost use Rattle.access.specs.Plan.{AnyCarries, StoreSees, held_word};
ghost use Rattle.access.specs.Search.{searched};

use crate::ask::Asked;
use crate::look::Access;
use crate::plans::{Places, Plan};
use moves::{Change, change};
use rules::{Answer, Answered, Held, Line, Machine, State};

// A later number has written or read the address: the store misspeculates.
#[derive(Clone, Copy)]
pub struct Late;

impl Asked {
    // The owner that a store goes on from, or none; or it comes too late.
    pub fn search_owner(&self) -> Result<Option<Held>, Late>
        ensures { result ≡ searched self.now.access.a self.now.seen.owner }
    {
        match self.seen.owner {
            Some(owner) if misspeculates(self.access.a, owner.line) => Err(Late),
            owner => Ok(owner),
        }
    }

    // The store of `word`, which goes on from `owner`.
    #[tactic(auto, using(crate::proofs::Searches::plain_goes_on, crate::proofs::Searches::store_from, crate::proofs::Searches::store_first, crate::proofs::Searches::on_time, crate::proofs::Searches::owner_found, crate::proofs::Searches::old_word))]
    pub fn store_plan(&self, owner: Option<Held>, word: u64) -> Plan
        requires { searched self.now.access.a owner ≡ Ok owner }
        ensures { AnyCarries (λ c μ. StoreSees self.now owner μ) (λ c μ. store_of μ self.now.access.vid c self.now.access.a self.now.access.x word) result }
    {
        match owner {
            _ if !self.access.vid => self.store_plain(word),
            Some(owner) => self.store_owned(owner, word),
            None => self.store_new(word),
        }
    }

    // From an owner: it drops or becomes an S-O, the S-S lines with its m drop, and the asker places S-M (a, a).
    #[tactic(auto, using(crate::proofs::Carried::owner_left))]
    fn store_owned(&self, owner: Held, word: u64) -> Plan
        requires { misspeculates self.now.access.a owner.line ≡ false }
        ensures { AnyCarries (λ c μ. owner.line ≡ at μ owner.place) (λ c μ. store_owned μ c self.now.access.a self.now.access.x word owner.place) result }
    {
        let Held { place, line } = owner;
        Plan {
            answer: Answer::Done,
            put: Some(Held {
                place,
                line: owner_after(self.access.a, line),
            }),
            change: Change::DropShares {
                x: self.access.x,
                m: line.m,
            },
            places: Places::One(self.version(word)),
        }
    }

    // No speculative line lives: all lines of the address drop; the asker places S-O (0, a) with the old word, then S-M (a, a).
    #[tactic(auto, unfolding(crate::specs::Plan::carried, rules::specs::Store::store_new, rules::specs::Machine::drop))]
    fn store_new(&self, word: u64) -> Plan
        ensures { AnyCarries (λ c μ. held_word self.now.seen.plain self.now.memory ≡ plain_data μ self.now.access.x) (λ c μ. store_new μ c self.now.access.a self.now.access.x word) result }
    {
        let Access { a, x, .. } = self.access;
        let old = Line {
            state: State::SO,
            address: x,
            m: 0,
            h: a,
            word: self.plain_word(),
        };
        Plan {
            change: Change::DropOf { x },
            places: Places::Two(old, self.version(word)),
            ..Plan::answering(Answer::Done)
        }
    }

    // A plain store: all lines of the address drop, the asker places M.
    #[tactic(auto, unfolding(crate::specs::Plan::carried, rules::specs::Store::store_m, rules::specs::Machine::drop))]
    fn store_plain(&self, word: u64) -> Plan
        ensures { AnyCarries (λ c μ. Unit {0}) (λ c μ. store_m μ c self.now.access.x word) result }
    {
        let change = Change::DropOf { x: self.access.x };
        self.place_plain(Answer::Done, State::M, word, change)
    }

    // The new version: S-M (a, a).
    fn version(&self, word: u64) -> Line
        ensures { result ≡ version self.now.access.x self.now.access.a word }
    {
        let Access { a, x, .. } = self.access;
        Line {
            state: State::SM,
            address: x,
            m: a,
            h: a,
            word,
        }
    }
}

// Owner S-O, or a below h in S-M or S-E.
#[tactic(auto, unfolding(rules::specs::Store::misspeculates))]
fn misspeculates(a: u16, owner: Line) -> bool
    ensures { result ≡ misspeculates a owner }
{
    owner.state == State::SO || a < owner.h
}

// What a store leaves of the owner in its slot: nothing where it is an S-M with m = a, else S-O (m, a).
fn owner_after(a: u16, owner: Line) -> Line
    ensures { result ≡ cond (is_sm owner.state && eqb a owner.m) empty (closed a owner) }
{
    if owner.state == State::SM && owner.m == a {
        Line::empty()
    } else {
        Line {
            state: State::SO,
            h: a,
            ..owner
        }
    }
}

// Misspeculation: the machine aborts, and no line is placed.
#[tactic(auto, unfolding(rules::specs::Abort::abort_of))]
pub fn misspeculation(machine: Machine) -> Answered
    ensures { result ≡ gives Misspec (abort_of machine) }
{
    let lcvid = machine.lcvid;
    Answered {
        answer: Answer::Misspec,
        machine: change(machine, Change::Abort { lcvid }),
    }
}
