// Keys, and decimal numbers behind them.
ghost use Rattle.std.specs.Prelude.{◌≡◌, ◌-◌, ◌≤◌, ◌<◌, ◌+◌, ◌*◌, ◌^◌, length, SomeIff};
ghost use Rattle.trace.specs.Numbers.{agreeing, key_fault, digits_from, number_in, field_at, line_end};
ghost use Rattle.trace.specs.Trace.{broken_at};

use super::Broken;
use rules::Fault;

// A number and the place after its last digit.
#[derive(Clone, Copy)]
pub struct Number {
    pub value: u64,
    pub next: usize,
}

// What is wrong, and the place of the first byte that can't stand there.
#[derive(Clone, Copy)]
pub struct Wrong {
    pub fault: Fault,
    pub place: usize,
}

impl Wrong {
    fn new(fault: Fault, place: usize) -> Wrong
        ensures { (result.fault ≡ fault) × (result.place ≡ place) }
    {
        Wrong { fault, place }
    }

    // The same by the column in the line that begins at a place: columns count from 1.
    pub fn in_line(self, at: usize) -> Broken
        requires behind { at ≤ self.place }
        requires near { self.place - at < 111 }
        ensures { result ≡ broken_at at self }
    {
        Broken {
            fault: self.fault,
            column: (self.place - at + 1) as u32,
        }
    }
}

// The place after the LF that stands at a place.
#[tactic(auto, unfolding(crate::specs::Numbers::line_end))]
pub fn line_end(s: &[u8], at: usize) -> Result<usize, Wrong>
    ensures { result ≡ line_end s.now at }
{
    match s.get(at) {
        Some(b'\n') => Ok(at + 1),
        _ => Err(Wrong::new(Fault::NoLineEnd, at)),
    }
}

// How many bytes of the key the text begins with.
#[tactic(auto, unfolding(crate::specs::Numbers::agreeing))]
fn agreeing(key: &[u8], s: &[u8]) -> usize
    ensures { result ≡ agreeing key.now s.now }
{
    key.iter().zip(s).take_while(|&(k, b)| *b == *k).count()
}

// A number with a digit more, where it still fits.
fn longer(value: u64, digit: u8) -> Option<u64>
    requires { digit < 10 }
    ensures { SomeIff result (value * 10 + digit < 2 ^ 64) (value * 10 + digit) }
{
    value.checked_mul(10)?.checked_add(u64::from(digit))
}

// The digits that a text begins with, up to a byte that is none, where it stands at a place. A digit that passes the limit is told, and not added.
#[tactic(auto, unfolding(crate::specs::Numbers::digits_from))]
fn digits_from(text: &[u8], at: usize) -> Result<Number, Wrong>
    requires { at + length text.now < 2 ^ 64 }
    ensures { result ≡ digits_from 0 at text.now }
{
    let mut value = 0;
    for (i, &b) in text.iter().enumerate() {
        if !b.is_ascii_digit() {
            return Ok(Number {
                value,
                next: at + i,
            });
        }
        let Some(more) = longer(value, b - b'0') else {
            return Err(Wrong::new(Fault::NumberTooLarge, at + i));
        };
        value = more;
    }
    Ok(Number {
        value,
        next: at + text.len(),
    })
}

// The number that a text begins with, where it stands at a place: 0 alone, or, where the key is used, digits that don't begin with 0.
fn number_in(used: bool, text: &[u8], at: usize) -> Result<Number, Wrong>
    requires { at + length text.now < 2 ^ 64 }
    ensures { result ≡ number_in used at text.now }
{
    match *text {
        [] => Err(Wrong::new(Fault::NoLineEnd, at)),
        [b'0', b'0'..=b'9', ..] => Err(Wrong::new(Fault::BadNumber, at + 1)),
        [b'0', ..] => Ok(Number {
            value: 0,
            next: at + 1,
        }),
        [b'1'..=b'9', ..] if used => digits_from(text, at),
        [b'1'..=b'9', ..] => Err(Wrong::new(Fault::KeyNotZero, at)),
        _ => Err(Wrong::new(Fault::BadNumber, at)),
    }
}

// What is wrong where a key breaks off: the text ends there, or goes on otherwise.
fn key_fault(rest: &[u8]) -> Fault
    ensures { result ≡ key_fault rest.now }
{
    match rest {
        [] => Fault::NoLineEnd,
        _ => Fault::WrongKey,
    }
}

// A key at a place, and the number behind it. It stands in its callers' code, so that a key is compared as the constant that it is.
#[tactic(auto, using(crate::proofs::Keys::field_past, crate::proofs::Keys::agreeing_most, crate::proofs::Keys::field_behind), unfolding(crate::specs::Numbers::field_at, crate::specs::Numbers::number_at))]
#[inline(always)]
pub fn field_at(key: &[u8], used: bool, s: &[u8], at: usize) -> Result<Number, Wrong>
    ensures { result ≡ field_at key.now used s.now at }
{
    let Some(rest) = s.get(at..) else {
        return Err(Wrong::new(Fault::NoLineEnd, at));
    };
    let n = agreeing(key, rest);
    let behind = &rest[n..];
    if n != key.len() {
        return Err(Wrong::new(key_fault(behind), at + n));
    }
    number_in(used, behind, at + n)
}
