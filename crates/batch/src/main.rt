// The program: plays many texts in one run, so that a comparison need not start a program for each.
//
// Standard input is a series of frames: a letter, `r` for the report or `m` for the report with the machine shown; the length of the text in decimal; an LF; and the text.
// For each, standard output has what the programs `hmtx` and `hmtx_machine` write for that text, and then a line `end`. The run ends with the input, and at what is no frame.
#![tactic(auto)]

mod frames;

use frames::{Frame, Wanted, next_frame};
use play::Played;

// The report of a text, by the proved player; that it fits is `report_fits`, in the crate `play`.
fn report(text: &[u8]) {
    let mut out = [0u8; 131072];
    let Played { end, .. } = play::play(text, &mut out);
    io::write_all(1, &out[..end]);
}

fn play_frame(frame: Frame<'_>) {
    match frame.wanted {
        Wanted::Report => report(frame.text),
        Wanted::Shown => shown::play(1, frame.text),
    }
    io::write_all(1, b"end\n");
}

// One byte more than a trace may have is kept of a longer text, and is enough to tell that it is too long.
// A proved loop has to end, and nothing says that the input does. So the loop counts its frames, up to a number that no run comes to.
fn main() {
    let mut buffer = [0u8; 65537];
    for _ in 0..u64::MAX {
        let Some(frame) = next_frame(&mut buffer) else {
            break;
        };
        play_frame(frame);
    }
}
