// The player for programs in C and Rust: `rt lib` writes an archive whose one symbol is `ladomysh_play`, and `tools/library` puts it where the examples look. examples/ladomysh.h declares it.
//
// A slice is a pointer and a length there, and `Played` a struct of C's. The contract is that of `play::play`; what a caller in another language owes, nothing checks: docs/GUIDE.md says it.
#![tactic(auto)]

ghost use Rattle.play.specs.Play.{report_of};
ghost use Rattle.play.specs.Buffer.{Plays};

use play::Played;

// The whole report of a text, from the start of the buffer on.
#[unsafe(no_mangle)]
pub extern "C" fn ladomysh_play(text: &[u8], out: &mut [u8]) -> Played
    ensures { Plays (report_of text.now) out.old result out.new }
{
    play::play(text, out)
}
