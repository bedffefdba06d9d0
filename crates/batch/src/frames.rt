// Standard input as frames: what is asked for, the length of a text, and the text as far as there is room for it.
ghost use Rattle.std.specs.Prelude.{◌≤◌};
ghost use Rattle.io.specs.Counts.{IsPrefixLen};

// What a frame asks for: the report, or the report with the machine shown.
#[derive(Clone, Copy)]
pub enum Wanted {
    Report,
    Shown,
}

// A letter that asks for nothing.
#[derive(Clone, Copy)]
pub struct UnknownLetter;

impl TryFrom<u8> for Wanted {
    type Error = UnknownLetter;

    fn try_from(letter: u8) -> Result<Self, UnknownLetter> {
        match letter {
            b'r' => Ok(Wanted::Report),
            b'm' => Ok(Wanted::Shown),
            _ => Err(UnknownLetter),
        }
    }
}

#[derive(Clone, Copy)]
pub struct Frame<'a> {
    pub wanted: Wanted,
    pub text: &'a [u8],
}

// The next frame, if there is one. A text that is longer than the buffer is kept as far as there is room.
pub fn next_frame(buffer: &mut [u8]) -> Option<Frame<'_>> {
    let wanted = Wanted::try_from(next_byte()?).ok()?;
    let length = read_length()?;
    let got = read_part(buffer, length);
    skip(length - got)?;
    Some(Frame {
        wanted,
        text: &buffer[..got],
    })
}

// The next byte, if the input goes on.
fn next_byte() -> Option<u8> {
    let mut one = [0u8; 1];
    if io::read_full(0, &mut one) == 0 {
        return None;
    }
    Some(one[0])
}

// The decimal number before the next LF, if one is written there. Ten digits are more than any text needs, and keep the sums from wrapping.
fn read_length() -> Option<usize> {
    let mut n: usize = 0;
    for i in 0..11usize {
        match next_byte()? {
            b'\n' if i == 0 => return None,
            b'\n' => return Some(n),
            digit @ b'0'..=b'9' => n = n * 10 + usize::from(digit - b'0'),
            _ => return None,
        }
    }
    None
}

// Reads as many bytes as are asked for, or as many as the buffer holds; fewer only where the input ends.
fn read_part(buffer: &mut [u8], count: usize) -> usize
    ensures { (result ≤ count) × IsPrefixLen result buffer.new }
{
    if count < buffer.len() {
        return io::read_full(0, &mut buffer[..count]);
    }
    io::read_full(0, buffer)
}

// Reads that many bytes and throws them away, if the input doesn't end before.
fn skip(count: usize) -> Option<()> {
    let mut buffer = [0u8; 4096];
    let mut left = count;
    while 0 < left {
        let got = read_part(&mut buffer, left);
        if got == 0 {
            return None;
        }
        left -= got;
    }
    Some(())
}
