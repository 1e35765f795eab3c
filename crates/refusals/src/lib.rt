// When concentrate and distribute refuse: what they answer, by the lengths of what is lent and by the marks and aims.
#![tactic(auto)]

mod judging;

ghost use Rattle.std.specs.Prelude.{◌≡◌};
ghost use Rattle.answers.specs.Answers.{accepted, accepted_by, answer_of, verdict, without_logs};
ghost use Rattle.lists.specs.Lists.{runs_of};
ghost use Rattle.refusals.specs.Cases.{Framed, full_of, cut_of};
ghost use Rattle.refusals.specs.Cuts.{first_runs};

use crate::judging::{check_cut, check_frame, check_lanes, check_marked, first_runs};
use answers::{Moves, Refusal, check_log, moves_of};
use array::lent::LentSlots;
use lists::{Trip, runs_of};

// The lengths of the lanes that are judged by their length alone.
#[derive(Clone, Copy, Debug, PartialEq, Eq)]
pub struct Sizes {
    pub words: usize,
    pub spare_words: usize,
    pub spare_marks: usize,
    pub spare_aims: usize,
}

// What is judged: a side, the lengths of the lanes, and the marks and aims of the front slots.
#[derive(Clone, Copy, Debug, PartialEq, Eq)]
pub struct Frame<'a> {
    pub side: usize,
    pub sizes: Sizes,
    pub marks: &'a [u8],
    pub aims: &'a [u16],
}

impl<'a> Frame<'a> {
    // The lanes that are lent of front slots and of spare ones, as those of a board of this side.
    pub fn new(side: usize, front: &'a LentSlots, spare: &LentSlots) -> Frame<'a>
        ensures { Framed side front.now spare.now result }
    {
        Frame {
            side,
            sizes: Sizes {
                words: front.words.len(),
                spare_words: spare.words.len(),
                spare_marks: spare.marks.len(),
                spare_aims: spare.aims.len(),
            },
            marks: front.marks,
            aims: front.aims,
        }
    }
}

// A full run. The aims are judged last, where no case before theirs applies: then they are a board's, and the marks good.
pub fn judge_full(trip: Trip, frame: Frame, codes: usize, moved: usize) -> Result<Moves, Refusal>
    ensures { answer_of result ≡ verdict (full_of trip frame.entry codes moved) (accepted_by (runs_of trip frame.entry.side)) }
{
    let runs = runs_of(trip, frame.side);
    check_lanes(frame)?;
    check_log(runs, codes)?;
    check_log(runs, moved)?;
    check_marked(trip, frame)?;
    Ok(moves_of(runs))
}

// A run up to a cut.
pub fn judge_cut(trip: Trip, cut: usize, frame: Frame) -> Result<Moves, Refusal>
    ensures { answer_of result ≡ verdict (cut_of trip cut frame.entry) (accepted_by (first_runs cut (runs_of trip frame.entry.side))) }
{
    let side = frame.side;
    check_frame(trip, frame)?;
    check_cut(side, cut)?;
    Ok(moves_of(first_runs(runs_of(trip, side), cut)))
}

// A full run that writes no log and whose moves are these.
pub fn judge_unlogged(trip: Trip, frame: Frame, moves: Moves) -> Result<Moves, Refusal>
    ensures { answer_of result ≡ verdict (without_logs (full_of trip frame.entry 0 0)) (accepted moves.electronic moves.swaps) }
{
    check_frame(trip, frame)?;
    Ok(moves)
}
