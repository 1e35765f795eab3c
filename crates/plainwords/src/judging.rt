// How the plain entries on words answer: the cases of each in the order of their numbers, and the counts of its list by formula.
ghost use Rattle.std.specs.Prelude.{◌≡◌, ◌*◌, [], ◌∷◌};
ghost use Rattle.lists.specs.Lists.{broadcast_runs};
ghost use Rattle.shiftlists.specs.Shifts.{swaps_of, shift_runs};
ghost use Rattle.answers.specs.Answers.{verdict, accepted_by, without_logs, answer_of, side_case, lane_case};
ghost use Rattle.answers.specs.Judged.{Judged};
ghost use Rattle.words.specs.Entries.{broadcast_cases, shift_cases};
ghost use Rattle.plainwords.specs.Inside.{shift_moves};

use answers::{Moves, Refusal, check_cell, check_lane, check_side};
use shiftlists::{Axis, Distance, Edge, check_distance, circular_moves};

// The checks that every entry begins with.
pub(crate) fn check_words(side: usize, length: usize) -> Result<(), Refusal>
    ensures { Judged (side_case side ∷ lane_case side length ∷ []) result }
{
    check_side(side)?;
    check_lane(side, length)
}

pub(crate) fn judge_broadcast(side: usize, cell: usize, length: usize) -> Result<Moves, Refusal>
    ensures { answer_of result ≡ verdict (without_logs (broadcast_cases side cell length 0)) (accepted_by (broadcast_runs side cell)) }
{
    check_words(side, length)?;
    check_cell(side, cell)?;
    Ok(Moves {
        electronic: 4 * (side - 1),
        swaps: 1,
    })
}

fn shift_moves(edge: Edge, side: usize, k: Distance) -> usize
    ensures { result ≡ shift_moves edge side k }
{
    match edge {
        Edge::ZeroFill => k.forth.wrapping_add(k.back),
        Edge::Circular => circular_moves(side, k),
    }
}

// Said here too, since the engines share no code that knows a list.
fn shift_swaps(axis: Axis) -> usize
    ensures { result ≡ 2 * swaps_of axis }
{
    match axis {
        Axis::MeshRow | Axis::MeshColumn => 0,
        Axis::GroupRow | Axis::GroupColumn => 2,
    }
}

pub(crate) fn judge_shift(
    side: usize,
    axis: Axis,
    edge: Edge,
    k: i32,
    length: usize,
) -> Result<Moves, Refusal>
    ensures { answer_of result ≡ verdict (without_logs (shift_cases side axis edge k length 0)) (accepted_by (shift_runs side axis edge k)) }
{
    check_words(side, length)?;
    check_distance(side, k)?;
    Ok(Moves {
        electronic: shift_moves(edge, side, Distance::from(k)),
        swaps: shift_swaps(axis),
    })
}
