// A trace played with the machine shown: behind each line of the report, before its LF, the whole machine after that step.
//
// ` | `, then every slot that isn't I in cache and slot order, dead ones too, as `c0s3:S-M a5 m1 h2 w10` (cache 0, slot 3, state, address, m, h, word) with `; ` between;
// then ` | mem`, and ` 5=10` for each memory word that isn't zero (address=word). A machine with no line shows ` | | mem`. A refused first line has no machine behind it.
//
// That this is safe and ends is proved. What is printed is tested and not promised: the functions have no contract.
#![tactic(auto)]

mod text;

use arrayvec::ArrayString;
use rules::{Answer, Answered, Reason};
use std::fmt::Write;
use std::str;
use text::Shown;
use trace::Caches;
use trace::reader::Reader;

// The line of a step, and the machine before its LF, in place of what the text was: each step writes to the same text, since one that is handed back is copied.
// Whatever the numbers, a slot takes at most 99 bytes, a word 24 and the report's line 144, so there is room for all.
fn write_step(text: &mut ArrayString<8192>, n: u64, did: &Answered) -> Option<()> {
    let mut buffer = [0u8; 144];
    let lcvid = u64::from(did.machine.lcvid);
    let end = report::write_line(&mut buffer, 0, n, did.answer, lcvid).ok()?;
    let line = str::from_utf8(&buffer[..end]).ok()?;
    text.clear();
    writeln!(text, "{}{}", line.trim_end(), Shown(&did.machine)).ok()
}

fn show_step(fd: i32, text: &mut ArrayString<8192>, n: u64, did: &Answered) {
    if write_step(text, n, did).is_some() {
        io::write_all(fd, text.as_str().as_bytes());
    }
}

// The refused first line, plain.
fn show_refused(fd: i32, reason: Reason) {
    let mut buffer = [0u8; 144];
    if let Ok(end) = report::write_line(&mut buffer, 0, 0, Answer::Refused(reason), 0) {
        io::write_all(fd, &buffer[..end]);
    }
}

// The steps that a reader gives, up to a line that is unreadable.
fn play_steps(fd: i32, fresh: Answered, steps: Reader<'_>) {
    let mut did = fresh;
    let mut text = ArrayString::new();
    for (n, read) in (1..=u64::MAX).zip(steps) {
        match read {
            Ok(op) => did = step::rule(did.machine, op),
            Err(broken) => did.answer = Answer::Refused(broken.into()),
        }
        show_step(fd, &mut text, n, &did);
    }
}

// A machine with so many caches as the first line says, and the steps behind the line; or why the text is refused before its first step.
fn play_text(fd: i32, text: &[u8]) -> Result<(), Reason> {
    if 65536 < text.len() {
        return Err(Reason::TextTooLong);
    }
    let Caches { count, next } = trace::first_line(text)?;
    let made = step::make(count as usize, [0u64; 64]);
    if let Answer::Refused(reason) = made.answer {
        return Err(reason);
    }
    play_steps(fd, made, Reader::new(text, next));
    Ok(())
}

// Plays a text, and writes each line to the file descriptor.
pub fn play(fd: i32, text: &[u8]) {
    if let Err(reason) = play_text(fd, text) {
        show_refused(fd, reason);
    }
}
