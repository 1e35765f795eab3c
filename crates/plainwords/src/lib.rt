// The plain engine on words: broadcast, data sum, prefix sum and the eight shifts, from the cell index alone, without moves.
#![tactic(auto)]

mod axes;
mod judging;
mod lines;
mod tables;

ghost use Rattle.std.specs.Prelude.{◌≡◌, suc, ◌%◌, ◌^◌, length};
ghost use Rattle.laws.specs.Sums.{sum_of};
ghost use Rattle.laws.specs.Tables.{entries};
ghost use Rattle.answers.specs.Answers.{answer_of};
ghost use Rattle.plainwords.specs.Entries.{PlainBroadcast, PlainDataSum, PlainPrefixSum, PlainShift};

use crate::axes::NearShift;
use crate::judging::{check_words, judge_broadcast, judge_shift};
use answers::{Moves, Refusal};
use lists::total_moves;
use shiftlists::{Axis, Distance, Edge};

// The sum of all words, modulo 2^32.
fn total(words: &[u32]) -> u32
    ensures { result ≡ sum_of (length words.now) words.now % 2 ^ 32 }
{
    let mut sum: u32 = 0;
    for &word in words {
        sum = sum.wrapping_add(word);
    }
    sum
}

// Every word becomes the sum of the words up to it, modulo 2^32.
fn add_up(words: &mut [u32])
    ensures { words.new ≡ entries (λ i. sum_of (suc i) words.old % 2 ^ 32) 0 (length words.old) }
{
    let mut sum: u32 = 0;
    for word in words.iter_mut() {
        sum = sum.wrapping_add(*word);
        *word = sum;
    }
}

// Every word becomes that of a cell.
pub fn broadcast(side: usize, cell: usize, words: &mut [u32]) -> Result<Moves, Refusal>
    ensures { PlainBroadcast side cell words (answer_of result) }
{
    let moves = judge_broadcast(side, cell, words.len())?;
    let word = words[cell];
    words.fill(word);
    Ok(moves)
}

// Every word becomes the sum of all, modulo 2^32.
pub fn data_sum(side: usize, words: &mut [u32]) -> Result<Moves, Refusal>
    ensures { PlainDataSum side words (answer_of result) }
{
    check_words(side, words.len())?;
    let sum = total(words);
    words.fill(sum);
    Ok(Moves {
        electronic: 8 * (side - 1),
        swaps: 1,
    })
}

// Every word becomes the sum of the words up to it, modulo 2^32.
pub fn prefix_sum(side: usize, words: &mut [u32]) -> Result<Moves, Refusal>
    ensures { PlainPrefixSum side words (answer_of result) }
{
    check_words(side, words.len())?;
    add_up(words);
    Ok(Moves {
        electronic: total_moves(side) - 2,
        swaps: 2,
    })
}

// Every word moves by k along its row or column, of the mesh or of the groups.
pub fn shift(
    side: usize,
    axis: Axis,
    edge: Edge,
    k: i32,
    words: &mut [u32],
) -> Result<Moves, Refusal>
    ensures { PlainShift side axis edge k words (answer_of result) }
{
    let moves = judge_shift(side, axis, edge, k, words.len())?;
    let k = Distance::from(k);
    NearShift { side, edge, k }.along(axis, words);
    Ok(moves)
}
