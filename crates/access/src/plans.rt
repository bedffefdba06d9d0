// What a load or a store does to the machine, as a plan, and the plan carried out.
ghost use Rattle.std.specs.Prelude.{◌≡◌};
ghost use Rattle.access.specs.Plan.{answering, Lands, carried};

use moves::{Change, change_all, place_in, put_in, refused};
use rules::{Answer, Answered, Held, Line, Machine, Reason};

// The lines that the asker places.
#[derive(Clone, Copy)]
pub enum Places {
    Nothing,
    One(Line),
    Two(Line, Line),
}

impl Places {
    // Into the lowest free slots of a cache, one line after the other; or refusal 11.
    #[tactic(auto, using(crate::proofs::Placed::one_lands, crate::proofs::Placed::first_refused))]
    fn place_in(self, machine: &mut Machine, cache: usize) -> Result<(), Reason>
        ensures { Lands cache self machine.old machine.new result }
    {
        match self {
            Places::Nothing => Ok(()),
            Places::One(line) => place_in(machine, cache, line),
            Places::Two(first, second) => {
                place_in(machine, cache, first)?;
                place_in(machine, cache, second)
            },
        }
    }
}

// A line is put in its slot, then all lines change, then the asker places, which may be refused.
#[derive(Clone, Copy)]
pub struct Plan {
    pub answer: Answer,
    pub put: Option<Held>,
    pub change: Change,
    pub places: Places,
}

impl Plan {
    // The plan that answers, and changes nothing.
    pub fn answering(answer: Answer) -> Plan
        ensures { result ≡ answering answer }
    {
        Plan {
            answer,
            put: None,
            change: Change::Stay,
            places: Places::Nothing,
        }
    }
}

// The plan carried out by a cache.
#[tactic(auto, using(crate::proofs::Carried::stays_changes), unfolding(crate::specs::Plan::carried))]
pub fn carry(machine: Machine, cache: usize, plan: Plan) -> Answered
    ensures { result ≡ carried machine cache plan }
{
    let mut done = Answered {
        answer: plan.answer,
        machine,
    };
    if let Some(Held { place, line }) = plan.put {
        put_in(&mut done.machine, place, line);
    }
    if !plan.change.stays() {
        change_all(&mut done.machine, plan.change);
    }
    match plan.places.place_in(&mut done.machine, cache) {
        Ok(()) => done,
        Err(reason) => refused(machine, reason),
    }
}
