// The program that bench/run counts: the rule, or the soundness check, some times over and without text.
//
// Standard input has a letter, `r` for the rule or `s` for the check; a digit, how many times; an LF; and a trace of at most 2,048 steps. The steps are read once.
// With `r` they are played that many times, each time from a fresh machine; with `s` once, and then the last machine is checked that many times.
// Standard output has a report line whose data depends on all that was done: the loaded values, each xored in, or 1 where every check said that the machine is sound.
#![tactic(auto)]

use rules::{Answer, Answered, Machine, Op};
use trace::Caches;
use trace::reader::Reader;

// What is measured.
#[derive(Clone, Copy)]
enum Measured {
    Rule,
    Check,
}

impl From<u8> for Measured {
    fn from(letter: u8) -> Measured {
        match letter {
            b'r' => Measured::Rule,
            _ => Measured::Check,
        }
    }
}

// The steps up to the first that is unreadable, as far as there is room for them.
fn read_ops<'a>(steps: Reader<'_>, room: &'a mut [Op]) -> &'a [Op] {
    let mut count = 0;
    for op in steps.map_while(Result::ok) {
        let Some(place) = room.get_mut(count) else {
            break;
        };
        *place = op;
        count += 1;
    }
    &room[..count]
}

// The rule: the steps are played from a fresh machine `times` times over. The loaded values, each xored in.
fn rules_alone(fresh: Answered, ops: &[Op], times: u8) -> u64 {
    let mut sum = 0;
    for _ in 0..times {
        let mut did = fresh;
        for op in ops {
            did = step::rule(did.machine, *op);
            sum ^= did.answer.data();
        }
    }
    sum
}

// The machine after the steps.
fn after_all(fresh: Machine, ops: &[Op]) -> Machine {
    let mut machine = fresh;
    for op in ops {
        machine = step::rule(machine, *op).machine;
    }
    machine
}

// The check, `times` times over. Each time another word stands in memory at address 63, so that no check can stand for the next.
fn checks_alone(last: Machine, times: u8) -> u64 {
    let mut machine = last;
    let mut all = true;
    for n in 0..times {
        machine.memory[63] = u64::from(n);
        all &= sound::is_sound(machine);
    }
    u64::from(all)
}

// The report line with that number as its value.
fn print(sum: u64) {
    let mut out = [0u8; 128];
    if let Ok(end) = report::write_line(&mut out, 0, 0, Answer::Value(sum), 0) {
        io::write_all(1, &out[..end]);
    }
}

fn measure(what: Measured, times: u8, text: &[u8]) {
    let Ok(Caches { count, next }) = trace::first_line(text) else {
        return;
    };
    let fresh = step::make(count as usize, [0u64; 64]);
    let mut room = [Op::Abort; 2048];
    let ops = read_ops(Reader::new(text, next), &mut room);
    print(match what {
        Measured::Rule => rules_alone(fresh, ops, times),
        Measured::Check => checks_alone(after_all(fresh.machine, ops), times),
    });
}

fn main() {
    let mut text = [0u8; 65539];
    let got = io::read_full(0, &mut text);
    if let [letter, digit, _, trace @ ..] = &text[..got]
        && let Some(times) = digit.checked_sub(b'0')
    {
        measure(Measured::from(*letter), times, trace);
    }
}
