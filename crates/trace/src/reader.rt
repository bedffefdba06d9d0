// A reader: a text and a place in it, kept together, and thin functions over the two.
//
// None has a `requires`, and nothing is assumed. `read` leaves the work to `step_at`, which takes a plain slice and a place.
ghost use Rattle.std.specs.Prelude.{◌≡◌};
ghost use Rattle.trace.specs.Trace.{read_at};

use super::{Broken, Step, step_at};
use rules::Op;

// "The trace reader keeps the text and its place together."
#[derive(Clone, Copy)]
pub struct Reader<'a> {
    pub text: &'a [u8],
    pub at: usize,
}

impl<'a> Reader<'a> {
    // A reader at a place of a text.
    pub fn new(text: &'a [u8], at: usize) -> Reader<'a>
        ensures { (result.text ≡ text.entry) × (result.at ≡ at) }
    {
        Reader { text, at }
    }

    // The place at which a reader is.
    pub fn place(self) -> usize
        ensures { result ≡ self.entry.at }
    {
        self.at
    }

    // The step that stands at the reader's place.
    pub fn read(self) -> Result<Option<Step>, Broken>
        ensures { result ≡ read_at self.entry.text.now self.entry.at }
    {
        step_at(self.text, self.at)
    }

    // The reader at another place of its text: after a step, that is the place which the step carries.
    pub fn moved(self, at: usize) -> Reader<'a>
        ensures { (result.text ≡ self.entry.text) × (result.at ≡ at) }
    {
        Reader { at, ..self }
    }
}

impl<'a> Iterator for Reader<'a> {
    ghost use Rattle.trace.specs.Reader.{Gives, left_of};

    type Item = Result<Op, Broken>;

    ghost next_gives = { Gives };

    ghost remaining = { left_of };

    // The step that stands at the reader's place, and the reader goes behind its line. Behind a line that is unreadable it gives no more.
    #[tactic(auto, using(crate::proofs::Lengths::step_long, crate::proofs::Lengths::broken_inside))]
    fn next(&mut self) -> Option<Result<Op, Broken>> {
        match self.read() {
            Ok(None) => None,
            Ok(Some(step)) => {
                *self = self.moved(step.next);
                Some(Ok(step.op))
            }
            Err(broken) => {
                *self = self.moved(self.text.len());
                Some(Err(broken))
            }
        }
    }
}
