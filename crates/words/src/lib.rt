// The operations that use words only: broadcast, data sum, prefix sum and the eight shifts.
#![tactic(auto)]

mod judging;

ghost use Rattle.answers.specs.Answers.{answer_of};
ghost use Rattle.words.specs.Entries.{Broadcast, DataSum, PrefixSum, Shift};

use crate::judging::{judge_broadcast, judge_shift, judge_sum};
use answers::{Moves, Refusal};
use lists::{broadcast_runs, data_sum_runs, prefix_sum_runs};
use prefix::prefix_words;
use runs::write_codes;
use shiftlists::{Axis, Edge, shift_runs};
use shifts::shift_words;
use spreads::{broadcast_words, data_sum_words};

// Every word becomes that of a cell.
pub fn broadcast(
    side: usize,
    cell: usize,
    words: &mut [u32],
    codes: &mut [u8],
) -> Result<Moves, Refusal>
    ensures { Broadcast side cell words codes (answer_of result) }
{
    let moves = judge_broadcast(side, cell, words.len(), codes.len())?;
    broadcast_words(side, cell, words);
    write_codes(broadcast_runs(side, cell), codes, 0);
    Ok(moves)
}

// Every word becomes the sum of all, modulo 2^32.
pub fn data_sum(side: usize, words: &mut [u32], codes: &mut [u8]) -> Result<Moves, Refusal>
    ensures { DataSum side words codes (answer_of result) }
{
    let moves = judge_sum(side, data_sum_runs(side), words.len(), codes.len())?;
    data_sum_words(side, words);
    write_codes(data_sum_runs(side), codes, 0);
    Ok(moves)
}

// Every word becomes the sum of the words up to it, modulo 2^32.
pub fn prefix_sum(side: usize, words: &mut [u32], codes: &mut [u8]) -> Result<Moves, Refusal>
    ensures { PrefixSum side words codes (answer_of result) }
{
    let moves = judge_sum(side, prefix_sum_runs(side), words.len(), codes.len())?;
    prefix_words(side, words);
    write_codes(prefix_sum_runs(side), codes, 0);
    Ok(moves)
}

// Every word moves by k along its row or column, of the mesh or of the groups.
pub fn shift(
    side: usize,
    axis: Axis,
    edge: Edge,
    k: i32,
    words: &mut [u32],
    codes: &mut [u8],
) -> Result<Moves, Refusal>
    ensures { Shift side axis edge k words codes (answer_of result) }
{
    let moves = judge_shift(side, axis, edge, k, words.len(), codes.len())?;
    shift_words(side, axis, edge, k, words);
    write_codes(shift_runs(side, axis, edge, k), codes, 0);
    Ok(moves)
}
