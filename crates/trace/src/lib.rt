// Trace text: the first line, and the step that stands at a place; or what is wrong with the line, and from which column on.
//
// Each public function is proved to give what its definition says of every text, whatever its bytes; none has a `requires`, and the crate assumes nothing.
// `reader` keeps a text and a place in it together, and leaves the work to `step_at`, which takes a plain slice and a place.
#![tactic(auto)]

mod kinds;
mod numbers;
pub mod reader;

ghost use Rattle.std.specs.Prelude.{◌≡◌, ◌<◌, length};
ghost use Rattle.rules.specs.declared.Reason.TheVariants.{Unreadable};
ghost use Rattle.trace.specs.Trace.{first_at, first_of, kind_at, line_of, read_at};

use numbers::{Wrong, field_at, line_end};
use reader::Reader;
use rules::{Fault, Op, Reason};

// The first line: how many caches, and the place after it.
#[derive(Clone, Copy, PartialEq, Eq)]
pub struct Caches {
    pub count: u64,
    pub next: usize,
}

// A step, and the place after its line.
#[derive(Clone, Copy, PartialEq, Eq)]
pub struct Step {
    pub op: Op,
    pub next: usize,
}

// What is wrong with a line, and the byte column. No column is above 111, so it has room in 32 bits.
#[derive(Clone, Copy, PartialEq, Eq)]
pub struct Broken {
    pub fault: Fault,
    pub column: u32,
}

impl From<Broken> for Reason {
    ghost from_gives = { λ b r. r ≡ Unreadable b.fault b.column };

    fn from(broken: Broken) -> Reason {
        Reason::Unreadable(broken.fault, broken.column)
    }
}

// The six ops.
#[derive(Clone, Copy, PartialEq, Eq)]
pub enum Kind {
    AskLoad,
    AskStore,
    AskCommit,
    AskAbort,
    AskReset,
    AskEvict,
}

// Which keys an op uses.
#[derive(Clone, Copy, PartialEq, Eq)]
pub struct Uses {
    pub cache: bool,
    pub vid: bool,
    pub at: bool,
    pub word: bool,
}

// `caches=N`.
#[tactic(auto, unfolding(crate::specs::Trace::first_at, crate::specs::Trace::line_at))]
fn first_at(s: &[u8]) -> Result<Caches, Wrong>
    ensures { result ≡ first_at s.now }
{
    let caches = field_at(b"caches=", true, s, 0)?;
    let next = line_end(s, caches.next)?;
    Ok(Caches {
        count: caches.value,
        next,
    })
}

// The first line; a line that is wrong is so at a column.
#[tactic(auto, using(crate::proofs::Lengths::first_near), unfolding(crate::specs::Trace::first_of))]
pub fn first_line(s: &[u8]) -> Result<Caches, Broken>
    ensures { result ≡ first_of s.now }
{
    first_at(s).map_err(|wrong| wrong.in_line(0))
}

// The line that begins at a place, read as of the op whose letter stands in it.
#[tactic(auto, unfolding(crate::specs::Trace::kind_at, crate::specs::Trace::line_of, crate::specs::Trace::line_at))]
fn step_line(s: &[u8], at: usize) -> Result<Step, Wrong>
    requires { at < length s.now }
    ensures { result ≡ line_of (kind_at s.now at) s.now at }
{
    let kind = Kind::of(&s[at..]);
    let uses = kind.uses();
    let cache = field_at(kind.opening(), uses.cache, s, at)?;
    let vid = field_at(b" vid=", uses.vid, s, cache.next)?;
    let x = field_at(b" at=", uses.at, s, vid.next)?;
    let word = field_at(b" data=", uses.word, s, x.next)?;
    let next = line_end(s, word.next)?;
    Ok(Step {
        op: kind.op(cache.value, vid.value, x.value, word.value),
        next,
    })
}

// The work: the step that stands at a place of a slice.
#[tactic(auto, using(crate::proofs::Lengths::step_behind, crate::proofs::Lengths::step_near), unfolding(crate::specs::Trace::read_at))]
fn step_at(s: &[u8], at: usize) -> Result<Option<Step>, Broken>
    ensures { result ≡ read_at s.now at }
{
    if s.len() <= at {
        return Ok(None);
    }
    let step = step_line(s, at).map_err(|wrong| wrong.in_line(at))?;
    Ok(Some(step))
}

// The step that stands at a place, read through a reader: for a caller that has a plain slice and a place.
pub fn read_at(s: &[u8], at: usize) -> Result<Option<Step>, Broken>
    ensures { result ≡ read_at s.now at }
{
    Reader::new(s, at).read()
}
