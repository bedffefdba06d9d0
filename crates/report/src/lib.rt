// A line of the report, written into the caller's buffer from a place in its middle.
//
// The one public function is proved to write exactly the line that document 01 and request 2026-01 describe, or refuse with 13 and leave the whole buffer as it was; it has no `requires`, and the
// crate assumes nothing.
#![tactic(auto)]

ghost use Rattle.std.specs.Prelude.{◌≡◌, ◌+◌, ◌≤◌, [], ◌++◌};
ghost use Rattle.arrayvec.specs.ArrayString.{array_string_len};
ghost use Rattle.rules.specs.Text.{decimal};
ghost use Rattle.report.specs.Report.{answer_text, end_text, line_text, Writes};

use arrayvec::ArrayString;
use itoa::Buffer;
use rules::{Answer, Reason};

// A number at the line's end, of 20 digits at most.
#[tactic(auto, using(crate::proofs::Digits::is_decimal, crate::proofs::Digits::decimal_length))]
fn push_number(line: &mut ArrayString<144>, n: u64)
    requires { array_string_len line.old + 20 ≤ 144 }
    ensures text { line.new.bytes ≡ line.old.bytes ++ decimal n }
    ensures len { array_string_len line.new ≤ array_string_len line.old + 20 }
{
    let mut digits = Buffer::new();
    line.push_str(digits.format(n));
}

// The answer's word, a refusal's number behind it, and the letter of a 12. A word has 8 bytes at most.
fn push_answer(line: &mut ArrayString<144>, answer: Answer)
    requires { array_string_len line.old + 29 ≤ 144 }
    ensures text { line.new.bytes ≡ line.old.bytes ++ answer_text answer }
    ensures len { array_string_len line.new ≤ array_string_len line.old + 29 }
{
    line.push_str(answer.word());
    if let Answer::Refused(reason) = answer {
        push_number(line, reason.number());
        if let Reason::Unreadable(fault, _) = reason {
            line.push(char::from(fault.letter()));
        }
    }
}

// What stands behind the LCVID: the column of an unreadable line. ` col=` is 5 bytes.
fn push_end(line: &mut ArrayString<144>, answer: Answer)
    requires { array_string_len line.old + 25 ≤ 144 }
    ensures text { line.new.bytes ≡ line.old.bytes ++ end_text answer }
    ensures len { array_string_len line.new ≤ array_string_len line.old + 25 }
{
    if let Answer::Refused(Reason::Unreadable(_, column)) = answer {
        line.push_str(" col=");
        push_number(line, u64::from(column));
    }
}

// The whole line, of 141 bytes at most. It is made where it stands: handed back, it would be copied twice.
fn make_line(line: &mut ArrayString<144>, step: u64, answer: Answer, lcvid: u64)
    requires { line.old.bytes ≡ [] }
    ensures { line.new.bytes ≡ line_text step answer lcvid }
{
    line.push_str("step=");
    push_number(line, step);
    line.push_str(" answer=");
    push_answer(line, answer);
    line.push_str(" data=");
    push_number(line, answer.data());
    line.push_str(" lcvid=");
    push_number(line, lcvid);
    push_end(line, answer);
    line.push_str("\n");
}

// The line at the start of the part of a buffer that is lent, and the place after it; or 13 and no change where it doesn't fit.
fn copy_line(part: &mut [u8], line: &[u8]) -> Result<usize, Reason>
    ensures { Writes line.now 0 part.old result part.new }
{
    if part.len() < line.len() {
        return Err(Reason::NoFit);
    }
    part[..line.len()].copy_from_slice(line);
    Ok(line.len())
}

// The line of a step: its number, its answer, the data and the LCVID after it, from `place` on.
pub fn write_line(
    out: &mut [u8],
    place: usize,
    step: u64,
    answer: Answer,
    lcvid: u64,
) -> Result<usize, Reason>
    ensures { Writes (line_text step answer lcvid) place out.old result out.new }
{
    if out.len() < place {
        return Err(Reason::NoFit);
    }
    let mut line = ArrayString::new();
    make_line(&mut line, step, answer, lcvid);
    let length = copy_line(&mut out[place..], line.as_str().as_bytes())?;
    Ok(place + length)
}
