// The program: plays the trace on standard input, and writes its report on standard output.
//
// One byte more than a trace may have is enough to tell that a text is too long. The report of every text fits into 131,072 bytes: `report_fits`, in the crate `play`.
#![tactic(auto)]

use play::Played;

fn main() {
    let mut text = [0u8; 65537];
    let got = io::read_full(0, &mut text);
    let mut out = [0u8; 131072];
    let Played { end, .. } = play::play(&text[..got], &mut out);
    io::write_all(1, &out[..end]);
}
