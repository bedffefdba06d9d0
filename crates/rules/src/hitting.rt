// An empty line; dead, live, and what a line hits.
ghost use Rattle.std.specs.Prelude.{◌≡◌};
ghost use Rattle.rules.specs.Line.{empty, dead, live, hits, is_share};

use super::{Line, State};

impl Line {
    // An empty slot: I, and zero in all other fields.
    pub fn empty() -> Line
        ensures { result ≡ empty }
    {
        Line {
            state: State::I,
            address: 0,
            m: 0,
            h: 0,
            word: 0,
        }
    }

    // Dead: an S-O or S-S line with h up to LCVID.
    #[tactic(auto, unfolding(crate::specs::Line::dead))]
    pub fn is_dead(self, lcvid: u16) -> bool
        ensures { result ≡ dead lcvid self }
    {
        self.state.is_ranged() && self.h <= lcvid
    }

    // Live: every other line that isn't I.
    #[tactic(auto, unfolding(crate::specs::Line::live))]
    pub fn is_live(self, lcvid: u16) -> bool
        ensures { result ≡ live lcvid self }
    {
        self.state != State::I && !self.is_dead(lcvid)
    }

    // S-M and S-E hit if a is at least m; S-O and S-S if a is also below h.
    #[tactic(auto, unfolding(crate::specs::Line::hits))]
    pub fn hits(self, a: u16) -> bool
        ensures { result ≡ hits a self }
    {
        self.m <= a && (self.state.is_top() || (self.state.is_ranged() && a < self.h))
    }

    // An S-S line of address x with that m.
    #[tactic(auto, unfolding(crate::specs::Line::is_share))]
    pub fn is_share(self, x: u16, m: u16) -> bool
        ensures { result ≡ is_share x m self }
    {
        self.state == State::SS && self.address == x && self.m == m
    }
}
