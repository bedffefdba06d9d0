// A state as text.
ghost use Rattle.std.specs.Prelude.{Some};
ghost use Rattle.rules.specs.Text.{state_text};

use super::State;
use std::fmt;

impl fmt::Display for State {
    ghost output = { λ state. Some (state_text state) };

    fn fmt<W: fmt::Write>(&self, f: &mut fmt::Formatter<W>) -> fmt::Result {
        f.write_str(match self {
            State::I => "I",
            State::M => "M",
            State::O => "O",
            State::E => "E",
            State::S => "S",
            State::SM => "S-M",
            State::SO => "S-O",
            State::SE => "S-E",
            State::SS => "S-S",
        })
    }
}
