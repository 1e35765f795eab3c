// The plain engine on records: rank, concentrate and distribute, from the cell index alone, without moves.
#![tactic(auto)]

mod counting;
mod packing;
mod ranks;
mod spreading;

ghost use Rattle.answers.specs.Answers.{answer_of};
ghost use Rattle.array.specs.Lent.{SameSlots, SameLanes};
ghost use Rattle.plainrecords.specs.Entries.{PlainRank, PlainRunLent};
ghost use Rattle.plainrecords.specs.Inside.{TripSlots, Arranged};

use crate::counting::moves_of;
use crate::packing::pack;
use crate::ranks::{judge_rank, write_ranks};
use crate::spreading::spread;
use answers::{Moves, Refusal};
use array::lent::{LentLanes, LentSlots};
use clearing::empty;
use lists::Trip;
use refusals::{Frame, judge_unlogged};

// Writes each marked cell's rank into its aim, and 0 into every other.
pub fn rank(side: usize, marks: &[u8], aims: &mut [u16]) -> Result<Moves, Refusal>
    ensures { PlainRank side marks.now aims (answer_of result) }
{
    let moves = judge_rank(side, marks, aims.len())?;
    write_ranks(marks, aims);
    Ok(moves)
}

// The records at the end of a trip.
fn arrange(trip: Trip, slots: &mut LentSlots)
    requires { TripSlots trip slots.old }
    ensures same { SameSlots slots.old slots.new }
    ensures arranged { Arranged trip slots.old slots.new }
{
    match trip {
        Trip::Concentrate => pack(slots),
        Trip::Distribute => spread(slots),
    }
}

// Every record goes to the cell of its rank, or to the one that its aim names.
pub fn run(trip: Trip, side: usize, lanes: &mut LentLanes) -> Result<Moves, Refusal>
    ensures same { SameLanes lanes.old lanes.new }
    ensures run { PlainRunLent trip side lanes (answer_of result) }
{
    let frame = Frame::new(side, lanes.front, lanes.spare);
    let moves = judge_unlogged(trip, frame, moves_of(side))?;
    empty(lanes.spare);
    arrange(trip, lanes.front);
    Ok(moves)
}
