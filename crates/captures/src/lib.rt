// Replaying a captured run of concentrate: the first move at which it leaves the rule.
#![tactic(auto)]

mod start;
mod state;
mod walk;

ghost use Rattle.std.specs.Prelude.{◌≡◌};
ghost use Rattle.captures.specs.Replays.{replay_of};

use crate::start::Start;
use crate::walk::walk;
use answers::{Moves, Refusal};
use lists::Trip;
use refusals::{Frame, Sizes, judge_unlogged};

// A record as a capture has it: its cell, its slot (0 front, 1 spare), its word and its aim.
#[derive(Clone, Copy, Debug, PartialEq, Eq)]
pub struct Held {
    pub cell: usize,
    pub slot: usize,
    pub word: u32,
    pub aim: u32,
}

// What a replay finds where nothing is refused: all agrees, the first move that differs, or the last move of a capture that ends early.
#[derive(Clone, Copy, Debug, PartialEq, Eq)]
pub enum Replayed {
    Agrees,
    Differs(usize),
    Early(usize),
}

// Replays a capture from a starting table. It is judged and compared in one walk, and a refusal anywhere comes before a difference anywhere.
pub fn replay(
    side: usize,
    words: &[u32],
    marks: &[u8],
    aims: &[u16],
    capture: &[u8],
) -> Result<Replayed, Refusal>
    ensures { result ≡ replay_of side words.now marks.now aims.now capture.now }
{
    let n = words.len();
    let sizes = Sizes {
        words: n,
        spare_words: n,
        spare_marks: n,
        spare_aims: n,
    };
    let frame = Frame {
        side,
        sizes,
        marks,
        aims,
    };
    let no_moves = Moves {
        electronic: 0,
        swaps: 0,
    };
    judge_unlogged(Trip::Concentrate, frame, no_moves)?;
    if capture.len() > 65536 || side > 3 {
        return Err(Refusal::Capture(0));
    }
    walk(&Start::load(side, words, marks, aims), capture)
}
