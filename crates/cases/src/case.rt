// A machine that a case plays on: steps that print their answer, and edits, which may leave it unsound.
use rules::{Answer, Answered, Line, Machine, Op, Pos, Reason, State};

#[derive(Clone, Copy)]
pub struct Case {
    pub machine: Machine,
}

// ---- steps

impl Case {
    pub fn make(caches: usize) -> Case {
        Case::told(step::make(caches, [0u64; 64]))
    }

    pub fn load(&mut self, cache: usize, vid: u64, at: u64) {
        self.play(Op::Load { cache, vid, at });
    }

    pub fn store(&mut self, cache: usize, vid: u64, at: u64, data: u64) {
        self.play(Op::Store {
            cache,
            vid,
            at,
            data,
        });
    }

    pub fn commit(&mut self, vid: u64) {
        self.play(Op::Commit { vid });
    }

    pub fn abort(&mut self) {
        self.play(Op::Abort);
    }

    pub fn reset(&mut self) {
        self.play(Op::Reset);
    }

    pub fn evict(&mut self, cache: usize, slot: usize) {
        self.play(Op::Evict { cache, slot });
    }

    fn play(&mut self, op: Op) {
        *self = Case::told(step::step(self.machine, op));
    }

    // Prints an answer with its data and LCVID, and goes on with the machine.
    fn told(answered: Answered) -> Case {
        let Answered { answer, machine } = answered;
        io::write_all(1, b"  ");
        io::write_all(1, answer.word().as_bytes());
        if let Answer::Refused(reason) = answer {
            io::print_decimal(1, reason.number());
        }
        io::write_all(1, b" data=");
        io::print_decimal(1, answer.data());
        io::write_all(1, b" lcvid=");
        io::print_decimal(1, u64::from(machine.lcvid));
        io::write_all(1, b"\n");
        Case { machine }
    }

    // A step that is refused on every machine tells by its number whether the machine is sound: 5, or 2 before it.
    pub fn check(&mut self) {
        let answered = step::step(self.machine, Op::Evict { cache: 0, slot: 16 });
        if matches!(answered.answer, Answer::Refused(Reason::NotSound)) {
            io::write_all(1, b"  refused-2\n");
        } else {
            io::write_all(1, b"  sound\n");
        }
        self.machine = answered.machine;
    }
}

// ---- edits

pub fn place(cache: usize, slot: usize) -> Pos {
    Pos { cache, slot }
}

pub fn line(state: State, address: u16, m: u16, h: u16, word: u64) -> Line {
    Line {
        state,
        address,
        m,
        h,
        word,
    }
}

impl Case {
    pub fn put(&mut self, place: Pos, line: Line) {
        self.machine = moves::put(self.machine, place, line);
    }

    // An E line of address n in each slot n of a cache below `slots`.
    pub fn fill(&mut self, cache: usize, slots: u16) {
        for n in 0..slots {
            self.put(place(cache, usize::from(n)), line(State::E, n, 0, 0, 0));
        }
    }
}
