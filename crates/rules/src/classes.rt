// The classes of states that document 01 speaks of.
ghost use Rattle.std.specs.Prelude.{◌≡◌};
ghost use Rattle.rules.specs.States.{plain, spec, ranged, top, owns, dirty};

use super::State;

impl State {
    // Plain: M, O, E, S.
    pub fn is_plain(self) -> bool
        ensures { result ≡ plain self }
    {
        matches!(self, State::M | State::O | State::E | State::S)
    }

    // Speculative: S-M, S-O, S-E, S-S.
    pub fn is_spec(self) -> bool
        ensures { result ≡ spec self }
    {
        matches!(self, State::SM | State::SO | State::SE | State::SS)
    }

    // It hits up to its h: S-O, S-S.
    pub fn is_ranged(self) -> bool
        ensures { result ≡ ranged self }
    {
        matches!(self, State::SO | State::SS)
    }

    // The newest version: S-M, S-E.
    pub fn is_top(self) -> bool
        ensures { result ≡ top self }
    {
        matches!(self, State::SM | State::SE)
    }

    // It can be an owner: S-M, S-O, S-E.
    pub fn can_own(self) -> bool
        ensures { result ≡ owns self }
    {
        matches!(self, State::SM | State::SO | State::SE)
    }

    // A plain line whose word memory may not have: M, O.
    pub fn is_dirty(self) -> bool
        ensures { result ≡ dirty self }
    {
        matches!(self, State::M | State::O)
    }
}
