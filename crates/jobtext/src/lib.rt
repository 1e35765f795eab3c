// The job text, read from a lent slice into lent lanes: a job, or the refusal of the text.
#![tactic(auto)]

ghost use Rattle.std.specs.Prelude.{◌≡◌, ◌≤◌};
ghost use Rattle.texts.specs.Lines.{lines_of};
ghost use Rattle.jobtext.specs.Verdicts.{side_of, mark_line, cells_from, text_verdict};
ghost use Rattle.jobtext.specs.Lanes.{CellsRead, JobRead};

use answers::{Refusal, check_side};
use texts::read::{number_of, split_once};

// A marked cell, and its word.
#[derive(Clone, Copy, Debug, PartialEq, Eq)]
pub struct CellWord {
    pub index: usize,
    pub word: u32,
}

// A job that was read: its side, and how many cells are marked.
#[derive(Clone, Copy, Debug, PartialEq, Eq)]
pub struct Job {
    pub side: usize,
    pub marked: usize,
}

// The side that the first line gives.
fn read_side(line: &[u8]) -> Option<u32>
    ensures { result ≡ side_of line.now }
{
    let (name, side) = split_once(line, b'\t')?;
    if name != b"side".as_slice() {
        return None;
    }
    number_of(side)
}

// The marked cell that a later line gives, where its index is at least next and below end.
fn read_mark(line: &[u8], next: usize, end: usize) -> Option<CellWord>
    ensures { result ≡ mark_line next end line.now }
{
    let (index, word) = split_once(line, b'\t')?;
    let index = number_of(index)? as usize;
    let word = number_of(word)?;
    (next..end)
        .contains(&index)
        .then_some(CellWord { index, word })
}

// Reads the lines after the first into lanes, from what the lanes hold.
fn read_cells(
    text: &[u8],
    side: usize,
    words: &mut [u32; 4096],
    marks: &mut [u8; 4096],
) -> Result<Job, Refusal>
    requires { side ≤ 8 }
    ensures { CellsRead (cells_from side 0 2 (lines_of text.now)) words.old words.new marks.old marks.new result }
{
    let cells = side.pow(4);
    let mut next = 0;
    let mut marked = 0;
    for piece in text.split_inclusive(|&b| b == b'\n') {
        let refusal = Refusal::Job(marked + 2);
        let line = piece.strip_suffix(b"\n").ok_or(refusal)?;
        let cell = read_mark(line, next, cells).ok_or(refusal)?;
        words[cell.index] = cell.word;
        marks[cell.index] = 1;
        next = cell.index + 1;
        marked += 1;
    }
    Ok(Job { side, marked })
}

// Reads a job: into the lanes where it is one, and with the lanes as they were where it is refused.
pub fn read(text: &[u8], words: &mut [u32; 4096], marks: &mut [u8; 4096]) -> Result<Job, Refusal>
    ensures { JobRead (text_verdict text.now) words.old words.new marks.old marks.new result }
{
    // A text that is too long is refused as a whole: the place of that is 0.
    if text.len() > 65536 {
        return Err(Refusal::Job(0));
    }
    let (first, rest) = split_once(text, b'\n').ok_or(Refusal::Job(1))?;
    let side = read_side(first).ok_or(Refusal::Job(1))? as usize;
    check_side(side)?;
    let mut w = [0; 4096];
    let mut m = [0; 4096];
    let job = read_cells(rest, side, &mut w, &mut m)?;
    *words = w;
    *marks = m;
    Ok(job)
}
