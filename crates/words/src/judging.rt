// How the entries on words answer: the cases of each in the order of their numbers.
ghost use Rattle.std.specs.Prelude.{◌≡◌};
ghost use Rattle.lists.specs.Lists.{broadcast_runs};
ghost use Rattle.shiftlists.specs.Shifts.{shift_runs};
ghost use Rattle.answers.specs.Answers.{verdict, accepted_by, answer_of};
ghost use Rattle.answers.specs.Judged.{Judged};
ghost use Rattle.words.specs.Entries.{broadcast_cases, sum_cases, shift_cases};

use answers::{Moves, Refusal, check_cell, check_lane, check_log, check_side, moves_of};
use lists::broadcast_runs;
use runs::Run;
use shiftlists::{Axis, Edge, check_distance, shift_runs};

// The checks that every entry begins with.
fn check_words(side: usize, runs: [Run; 9], length: usize, log: usize) -> Result<(), Refusal>
    ensures { Judged (sum_cases side runs length log) result }
{
    check_side(side)?;
    check_lane(side, length)?;
    check_log(runs, log)
}

pub(crate) fn judge_broadcast(
    side: usize,
    cell: usize,
    length: usize,
    log: usize,
) -> Result<Moves, Refusal>
    ensures { answer_of result ≡ verdict (broadcast_cases side cell length log) (accepted_by (broadcast_runs side cell)) }
{
    let runs = broadcast_runs(side, cell);
    check_words(side, runs, length, log)?;
    check_cell(side, cell)?;
    Ok(moves_of(runs))
}

// Of data sum and of prefix sum.
pub(crate) fn judge_sum(
    side: usize,
    runs: [Run; 9],
    length: usize,
    log: usize,
) -> Result<Moves, Refusal>
    ensures { answer_of result ≡ verdict (sum_cases side runs length log) (accepted_by runs) }
{
    check_words(side, runs, length, log)?;
    Ok(moves_of(runs))
}

pub(crate) fn judge_shift(
    side: usize,
    axis: Axis,
    edge: Edge,
    k: i32,
    length: usize,
    log: usize,
) -> Result<Moves, Refusal>
    ensures { answer_of result ≡ verdict (shift_cases side axis edge k length log) (accepted_by (shift_runs side axis edge k)) }
{
    let runs = shift_runs(side, axis, edge, k);
    check_words(side, runs, length, log)?;
    check_distance(side, k)?;
    Ok(moves_of(runs))
}
