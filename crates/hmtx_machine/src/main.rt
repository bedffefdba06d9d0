// The program: plays the trace on standard input, and writes its report on standard output, with the machine behind each line.
//
// One byte more than a trace may have is enough to tell that a text is too long.
#![tactic(auto)]

fn main() {
    let mut text = [0u8; 65537];
    let got = io::read_full(0, &mut text);
    shown::play(1, &text[..got]);
}
