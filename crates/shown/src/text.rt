// A machine's text.
use rules::{Line, Machine, State};
use std::fmt;

// ` | `, every slot that isn't I in cache and slot order with `; ` between, ` | mem`, and each memory word that isn't zero.
#[derive(Clone, Copy)]
pub struct Shown<'a>(pub &'a Machine);

impl fmt::Display for Shown<'_> {
    fn fmt<W: fmt::Write>(&self, f: &mut fmt::Formatter<W>) -> fmt::Result {
        write!(f, " |")?;
        let mut first = true;
        for (c, cache) in self.0.caches.iter().enumerate() {
            for (s, line) in cache.lines.iter().enumerate() {
                let Line {
                    state,
                    address,
                    m,
                    h,
                    word,
                } = line;
                if *state != State::I {
                    f.write_str(if first { " c" } else { "; c" })?;
                    write!(f, "{c}s{s}:{state} a{address} m{m} h{h} w{word}")?;
                    first = false;
                }
            }
        }
        write!(f, " | mem")?;
        for (address, word) in self.0.memory.iter().enumerate() {
            if *word != 0 {
                write!(f, " {address}={word}")?;
            }
        }
        Ok(())
    }
}
