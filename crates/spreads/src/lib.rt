// Broadcast and data sum, on a lane of words: at the end every cell has the same word.
#![tactic(auto)]

ghost use Rattle.std.specs.Prelude.{◌≡◌, ◌≤◌, ◌<◌};
ghost use Rattle.array.specs.Cells.{cells};
ghost use Rattle.lanes.specs.Machine.{made};
ghost use Rattle.lanes.specs.Inside.{Moves};
ghost use Rattle.spreads.specs.Programs.{spread as spread_of, broadcast, group_sum, data_sum};
ghost use Rattle.spreads.specs.Results.{broadcast_lane, data_sum_lane};

use array::cells::{is_board, is_cell};
use array::moves::Way;
use lanes::{Joining, run};
use light::swap_words;

// In each group the word of row a and column b reaches the whole group.
fn spread(words: &mut [u32], side: usize, a: usize, b: usize)
    requires { (a < side) × (b < side) }
    ensures { Moves side (made side (spread_of side a b)) words.old words.new }
{
    let last = side - 1;
    run(side, Way::Left, Joining::Copy, b, b, words);
    run(side, Way::Right, Joining::Copy, b, last - b, words);
    run(side, Way::Up, Joining::Copy, a, a, words);
    run(side, Way::Down, Joining::Copy, a, last - a, words);
}

// The word of a cell reaches its group, goes by light to a cell of each group, and reaches that group.
fn spread_all(words: &mut [u32], side: usize, cell: usize)
    requires { (1 ≤ side) × (side ≤ 8) × (cell < cells side) }
    ensures { Moves side (made side (broadcast side cell)) words.old words.new }
{
    let n = side * side;
    let place = cell % n;
    let group = cell / n;
    spread(words, side, place / side, place % side);
    swap_words(side, words);
    spread(words, side, group / side, group % side);
}

// Every word becomes that of a cell.
pub fn broadcast_words(side: usize, cell: usize, words: &mut [u32])
    ensures { words.new ≡ broadcast_lane side cell words.old }
{
    if !is_board(side, words.len()) {
        return;
    }
    if !is_cell(side, cell) {
        return;
    }
    spread_all(words, side, cell);
}

// The data sum of each group.
fn group_sum(words: &mut [u32], side: usize)
    requires { 1 ≤ side }
    ensures { Moves side (made side (group_sum side)) words.old words.new }
{
    let last = side - 1;
    run(side, Way::Right, Joining::Add, 0, last, words);
    run(side, Way::Left, Joining::Copy, last, last, words);
    run(side, Way::Down, Joining::Add, 0, last, words);
    run(side, Way::Up, Joining::Copy, last, last, words);
}

fn sum_all(words: &mut [u32], side: usize)
    requires { 1 ≤ side }
    ensures { Moves side (made side (data_sum side)) words.old words.new }
{
    group_sum(words, side);
    swap_words(side, words);
    group_sum(words, side);
}

// Every word becomes the sum of all, modulo 2^32.
pub fn data_sum_words(side: usize, words: &mut [u32])
    ensures { words.new ≡ data_sum_lane side words.old }
{
    if !is_board(side, words.len()) {
        return;
    }
    sum_all(words, side);
}
