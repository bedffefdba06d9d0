// A whole trace text to a whole report, in a buffer that is lent.
//
// `play` is proved to write exactly the report that document 01 and request 2026-01 describe, for every text whatever its bytes; it has no `requires`, and the crate assumes nothing. The definition
// plays the public step, which tests the house rules first; the code plays the rule without that test, since every machine that it comes to is sound.
#![tactic(auto)]

ghost use Rattle.std.specs.Prelude.{length, Ok};
ghost use Rattle.rules.specs.House.{House, Sized};
ghost use Rattle.rules.specs.declared.Answer.TheVariants.{Refused};
ghost use Rattle.report.specs.Report.{line_text};
ghost use Rattle.play.specs.Play.{on_first, lines_from, report_of};
ghost use Rattle.play.specs.Buffer.{Plays, Ends};

use rules::{Answer, Answered, Reason};
use trace::Caches;
use trace::reader::Reader;

// The place after the report, and whether it is whole: the first line that doesn't fit (13) ends it.
#[repr(C)]
#[derive(Clone, Copy)]
pub struct Played {
    pub end: usize,
    pub whole: bool,
}

// The report's last line: a refusal after which nothing is played.
fn last_line(out: &mut [u8], end: usize, n: u64, reason: Reason, lcvid: u16) -> Played
    ensures { Ends (line_text n (Refused reason) lcvid) end out.old result out.new }
{
    match report::write_line(out, end, n, Answer::Refused(reason), u64::from(lcvid)) {
        Ok(last) => Played {
            end: last,
            whole: true,
        },
        Err(_) => Played { end, whole: false },
    }
}

// The steps from a place of the text on. The machine stays beside its last answer: taken out at each step, it would be copied once more.
fn play_steps(start: Answered, text: &[u8], from: usize, out: &mut [u8]) -> Played
    requires { House start.machine × Sized start.machine }
    ensures { Plays (lines_from (length text.now) text.now from 1 start.machine) out.old result out.new }
{
    let mut did = start;
    let mut end = 0;
    for (played, read) in Reader::new(text, from).enumerate() {
        let n = played as u64 + 1;
        let op = match read {
            Ok(op) => op,
            Err(broken) => return last_line(out, end, n, broken.into(), did.machine.lcvid),
        };
        did = step::rule(did.machine, op);
        let lcvid = u64::from(did.machine.lcvid);
        let Ok(last) = report::write_line(out, end, n, did.answer, lcvid) else {
            return Played { end, whole: false };
        };
        end = last;
    }
    Played { end, whole: true }
}

// The report where the first line is read: a machine with so many caches, and the steps behind the line.
fn play_caches(caches: Caches, text: &[u8], out: &mut [u8]) -> Played
    ensures { Plays (on_first text.now (Ok caches)) out.old result out.new }
{
    let made = step::make(caches.count as usize, [0; 64]);
    if let Answer::Refused(reason) = made.answer {
        return last_line(out, 0, 0, reason, 0);
    }
    play_steps(made, text, caches.next, out)
}

// The whole report, from the start of the buffer on.
pub fn play(text: &[u8], out: &mut [u8]) -> Played
    ensures { Plays (report_of text.now) out.old result out.new }
{
    if 65536 < text.len() {
        return last_line(out, 0, 0, Reason::TextTooLong, 0);
    }
    match trace::first_line(text) {
        Ok(caches) => play_caches(caches, text, out),
        Err(broken) => last_line(out, 0, 0, broken.into(), 0),
    }
}
