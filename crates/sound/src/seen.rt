// What a live line sees of the live lines of its address, and what it needs to see.
ghost use Rattle.std.specs.Prelude.{◌≡◌};

use super::fits::{owns_it, pair_fits};
use rules::{Held, Line, State};

#[derive(Clone, Copy)]
pub(crate) struct Seen {
    // Every other one fits beside it.
    fits: bool,
    // One is an O.
    o: bool,
    // One is an S-M or S-E.
    top: bool,
    // One is an owner with m up to LCVID.
    low: bool,
    // One is an owner that starts where it ends.
    next: bool,
    // One is its owner line.
    owner: bool,
}

impl Seen {
    ghost use Rattle.sound.specs.Numbered.{seeing, suffices};

    // Before it looks.
    pub(crate) const NOTHING: Seen = Seen {
        fits: true,
        o: false,
        top: false,
        low: false,
        next: false,
        owner: false,
    };

    // What k has seen, and l too.
    #[tactic(auto, unfolding(crate::specs::Numbered::seeing))]
    pub(crate) fn see(&mut self, lcvid: u16, k: Held, l: Held)
        ensures { self.new ≡ seeing lcvid k l self.old }
    {
        let state = l.line.state;
        self.fits &= k.place == l.place || pair_fits(k, l);
        self.o |= state == State::O;
        self.top |= state.is_top();
        self.low |= state.can_own() && l.line.m <= lcvid;
        self.next |= state.can_own() && l.line.m == k.line.h;
        self.owner |= owns_it(lcvid, k, l);
    }

    // What k has seen, with the word of memory at its address, is all that it needs.
    #[tactic(auto, unfolding(crate::specs::Numbered::suffices, rules::specs::Data::same_data))]
    pub(crate) fn suffices(self, k: Line, word: u64) -> bool
        ensures { result ≡ suffices k word self }
    {
        let same = k.word == word;
        self.fits
            && match k.state {
                State::I | State::M | State::O => true,
                State::E => same,
                State::S => same || self.o,
                State::SM => self.top && self.low,
                State::SO => self.top && self.low && self.next,
                State::SE => same && self.top && self.low,
                State::SS => self.top && self.low && self.owner,
            }
    }
}
