// One lane of words: a run of electronic moves.
#![tactic(auto)]

mod steps;

ghost use Rattle.std.specs.Prelude.{◌≡◌, ◌&&◌, length};
ghost use Rattle.array.specs.Cells.{is_board};
ghost use Rattle.lanes.specs.Runs.{is_run, ran_words};

use crate::steps::Lines;
use array::cells::is_board;
use array::moves::Way;

// What a cell does with the word that it receives. Add: it adds the word to its own. Copy: it keeps the word in place of its own. Both happen
// only in the move in which its position has its turn. Fill: in every move it keeps what it receives, and 0 where it receives nothing.
#[derive(Clone, Copy, Debug, PartialEq, Eq)]
pub enum Joining {
    Add,
    Copy,
    Fill,
}

fn is_run(side: usize, e: usize, n: usize, length: usize) -> bool
    ensures { result ≡ (is_board side length && is_run side e n) }
{
    is_board(side, length) && (e <= side && n <= side)
}

// n moves one way. With Add and Copy one position of each line has its turn in a move: position e in the first, the next one in the second, and
// so on.
pub fn run(side: usize, way: Way, joining: Joining, e: usize, n: usize, words: &mut [u32])
    ensures { words.new ≡ ran_words side way joining e n words.old }
{
    if !is_run(side, e, n, words.len()) {
        return;
    }
    Lines { side, way }.run(words, joining, e, n);
}
