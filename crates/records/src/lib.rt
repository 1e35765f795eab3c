// Concentrate and distribute, whole and up to a cut: records go to the cells of their ranks, or to those that their aims name.
#![tactic(auto)]

ghost use Rattle.std.specs.Prelude.{◌≡◌, true, ◌≤◌};
ghost use Rattle.answers.specs.Answers.{answer_of};
ghost use Rattle.array.specs.Cells.{is_side, cells};
ghost use Rattle.array.specs.Lent.{SameLanes};
ghost use Rattle.lists.specs.Lists.{total_moves};
ghost use Rattle.slots.specs.Lanes.{LongLent};
ghost use Rattle.refusals.specs.Cases.{Good};
ghost use Rattle.records.specs.Entries.{FullRunLent, CutRunLent};
ghost use Rattle.records.specs.Inside.{Performed};

use answers::{Moves, Refusal};
use array::lent::LentLanes;
use clearing::{empty, keep_marked};
use lists::{Trip, runs_of, total_moves};
use refusals::{Frame, judge_cut, judge_full};
use runs::write_codes;

// Clears spare lanes and unmarked cells, and makes so many first moves of the list.
fn perform(trip: Trip, side: usize, moves: usize, lanes: &mut LentLanes, moved: &mut [u16])
    requires side_value { is_side side ≡ true }
    requires long { LongLent (cells side) lanes.old }
    requires moves_bound { moves ≤ total_moves side }
    requires good { Good trip side lanes.old.front.now.marks.now lanes.old.front.now.aims.now }
    ensures same { SameLanes lanes.old lanes.new }
    ensures performed { Performed trip side moves lanes moved }
{
    empty(lanes.spare);
    keep_marked(lanes.front);
    mover::run(trip, side, runs_of(trip, side), moves, lanes, moved);
}

// A full run of either list.
pub fn run(
    trip: Trip,
    side: usize,
    lanes: &mut LentLanes,
    codes: &mut [u8],
    moved: &mut [u16],
) -> Result<Moves, Refusal>
    ensures same { SameLanes lanes.old lanes.new }
    ensures run { FullRunLent trip side lanes codes moved (answer_of result) }
{
    let moves = judge_full(
        trip,
        Frame::new(side, lanes.front, lanes.spare),
        codes.len(),
        moved.len(),
    )?;
    write_codes(runs_of(trip, side), codes, 0);
    perform(trip, side, total_moves(side), lanes, moved);
    Ok(moves)
}

// The first moves of either list, up to a cut, with no log.
pub fn run_cut(trip: Trip, side: usize, cut: usize, lanes: &mut LentLanes) -> Result<Moves, Refusal>
    ensures same { SameLanes lanes.old lanes.new }
    ensures run { CutRunLent trip side cut lanes (answer_of result) }
{
    let moves = judge_cut(trip, cut, Frame::new(side, lanes.front, lanes.spare))?;
    perform(trip, side, cut, lanes, &mut []);
    Ok(moves)
}
