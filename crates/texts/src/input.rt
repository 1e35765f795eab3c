// What comes from outside the program, into a lent slice.
ghost use Rattle.std.specs.Prelude.{◌≤◌, length, MatchResult};

use std::io::Read;

// A read failed behind so many bytes.
#[derive(Clone, Copy, Debug, PartialEq, Eq)]
pub struct BrokenOff {
    pub behind: usize,
}

// Reads until the text is full or the input ends, and returns how many bytes it put at the start.
pub fn read_full<R: Read>(input: &mut R, text: &mut [u8]) -> Result<usize, BrokenOff>
    ensures { MatchResult result (λ n. n ≤ length text.new) (λ broken. broken.behind ≤ length text.new) }
{
    let mut count = 0;
    while count < text.len() {
        match input.read(&mut text[count..]) {
            Err(_) => return Err(BrokenOff { behind: count }),
            Ok(0) => break,
            Ok(more) => count += more,
        }
    }
    Ok(count)
}
