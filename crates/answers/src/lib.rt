// How an entry answers: the moves that it made, or the first refusal that applies, in the order of their numbers.
#![tactic(auto)]

ghost use Rattle.std.specs.Prelude.{◌≡◌, [], ◌∷◌};
ghost use Rattle.answers.specs.Answers.{number_of, place_of, answer_of, accepted_by, side_case, lane_case, log_case, cell_case};
ghost use Rattle.answers.specs.Judged.{Judged};

use array::cells::{is_cell, is_cells, is_side};
use runs::{Run, electronic_in, step_at, swaps_in};

// Why an entry refuses, in the order of the numbers. Some name a place: a cell, or a line of a text.
#[derive(Clone, Copy, Debug, PartialEq, Eq)]
pub enum Refusal {
    Side,
    Lane,
    Log,
    Argument,
    Mark(usize),
    Aim(usize),
    Cut,
    Job(usize),
    Capture(usize),
}

impl Refusal {
    pub fn number(self) -> usize
        ensures { result ≡ number_of self }
    {
        match self {
            Refusal::Side => 1,
            Refusal::Lane => 2,
            Refusal::Log => 3,
            Refusal::Argument => 4,
            Refusal::Mark(_) => 5,
            Refusal::Aim(_) => 6,
            Refusal::Cut => 7,
            Refusal::Job(_) => 8,
            Refusal::Capture(_) => 10,
        }
    }

    // The place that it names, or 0.
    pub fn place(self) -> usize
        ensures { result ≡ place_of self }
    {
        match self {
            Refusal::Mark(cell) => cell,
            Refusal::Aim(cell) => cell,
            Refusal::Job(line) => line,
            Refusal::Capture(line) => line,
            _ => 0,
        }
    }
}

// How many moves were made.
#[derive(Clone, Copy, Debug, PartialEq, Eq)]
pub struct Moves {
    pub electronic: usize,
    pub swaps: usize,
}

// An answer in four numbers, as C takes it: the refusal number, or 0; the place that it names; the moves that were made.
#[repr(C)]
#[derive(Clone, Copy, Debug, PartialEq, Eq)]
pub struct Answer {
    pub number: usize,
    pub place: usize,
    pub electronic: usize,
    pub swaps: usize,
}

impl From<Result<Moves, Refusal>> for Answer {
    ghost from_gives = { λ outcome answer. answer ≡ answer_of outcome };

    fn from(outcome: Result<Moves, Refusal>) -> Answer {
        match outcome {
            Ok(moves) => Answer {
                number: 0,
                place: 0,
                electronic: moves.electronic,
                swaps: moves.swaps,
            },
            Err(refusal) => Answer {
                number: refusal.number(),
                place: refusal.place(),
                electronic: 0,
                swaps: 0,
            },
        }
    }
}

pub fn check_side(side: usize) -> Result<(), Refusal>
    ensures { Judged (side_case side ∷ []) result }
{
    is_side(side).then_some(()).ok_or(Refusal::Side)
}

// The length of a lane, where the side is one.
pub fn check_lane(side: usize, length: usize) -> Result<(), Refusal>
    ensures { Judged (lane_case side length ∷ []) result }
{
    is_cells(side, length).then_some(()).ok_or(Refusal::Lane)
}

// A log is too short where the list has a move that it does not reach.
pub fn check_log(runs: [Run; 9], length: usize) -> Result<(), Refusal>
    ensures { Judged (log_case runs length ∷ []) result }
{
    match step_at(runs, length) {
        Some(_) => Err(Refusal::Log),
        None => Ok(()),
    }
}

pub fn check_cell(side: usize, cell: usize) -> Result<(), Refusal>
    ensures { Judged (cell_case side cell ∷ []) result }
{
    is_cell(side, cell).then_some(()).ok_or(Refusal::Argument)
}

// The moves of a list, counted.
pub fn moves_of(runs: [Run; 9]) -> Moves
    ensures { answer_of (Ok result) ≡ accepted_by runs }
{
    let mut electronic: usize = 0;
    let mut swaps: usize = 0;
    for run in &runs {
        electronic = electronic.wrapping_add(electronic_in(run.step, run.times));
        swaps = swaps.wrapping_add(swaps_in(run.step, run.times));
    }
    Moves { electronic, swaps }
}
