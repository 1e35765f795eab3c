// Prefix sum, on a lane of words, in the paper's nine steps.
#![tactic(auto)]

ghost use Rattle.std.specs.Prelude.{◌≡◌, cond, ◌&&◌, ◌≤◌, leb, length};
ghost use Rattle.lanes.specs.Inside.{FitsBoard, Moves};
ghost use Rattle.prefix.specs.Programs.{prefixed};
ghost use Rattle.prefix.specs.Results.{prefix_sum_lane};
ghost use Rattle.prefix.specs.Inside.{RowsAndColumns, GroupSums, Modified, Finished};

use array::cells::is_board;
use array::moves::Way;
use lanes::{Joining, run};
use light::swap_words;
use sums::{add, balance, subtract, take};

// Steps 1 and 2: the sums along the rows, and those of the rows down the columns.
fn rows_and_columns(r: &mut [u32], c: &mut [u32], side: usize)
    requires side { 1 ≤ side }
    requires c_len { length c.old ≡ length r.old }
    ensures { RowsAndColumns side r.old r.new c.new }
{
    let last = side - 1;
    run(side, Way::Right, Joining::Add, 0, last, r);
    take(c, &r[..]);
    run(side, Way::Down, Joining::Add, 0, last, c);
}

// Step 3 and the sums of step 4: what comes by light, its sums along the rows, and theirs down the columns.
fn group_sums(c: &[u32], y: &mut [u32], z: &mut [u32], side: usize)
    requires side { 1 ≤ side }
    requires y_len { length y.old ≡ length c.now }
    requires z_len { length z.old ≡ length c.now }
    ensures { GroupSums side c.now y.new z.new }
{
    let last = side - 1;
    take(y, c);
    swap_words(side, y);
    run(side, Way::Right, Joining::Add, 0, last, y);
    take(z, &y[..]);
    run(side, Way::Down, Joining::Add, 0, last, z);
}

// The rest of step 4, and step 5: the rows above go back along the rows, each cell makes its modified sum, and that goes back by light. What came
// to a cell is what its partner still has in c: it is taken off there, behind the light, so that no lane has to keep it.
fn modify(c: &[u32], y: &[u32], z: &mut [u32], side: usize)
    requires { 1 ≤ side }
    ensures { Modified side c.now y.now z.old z.new }
{
    let last = side - 1;
    subtract(z, y);
    run(side, Way::Left, Joining::Copy, last, last, z);
    add(z, y);
    swap_words(side, z);
    subtract(z, c);
}

// Steps 6 to 9: up the last column; the column sum is added and the row sum taken off again; along the rows; the row sum is added.
fn finish(r: &mut [u32], c: &[u32], z: &mut [u32], side: usize)
    requires { 1 ≤ side }
    ensures { Finished side r.old c.now z.old r.new }
{
    let last = side - 1;
    run(side, Way::Up, Joining::Copy, last, last, z);
    balance(z, c, &r[..]);
    run(side, Way::Left, Joining::Copy, last, last, z);
    add(r, &z[..]);
}

// The nine steps on four lanes: r holds the words, and at the end their prefix sums, whatever the others held.
fn prefix_lanes(r: &mut [u32], c: &mut [u32], y: &mut [u32], z: &mut [u32], side: usize)
    requires side { 1 ≤ side }
    requires c_len { length c.old ≡ length r.old }
    requires y_len { length y.old ≡ length r.old }
    requires z_len { length z.old ≡ length r.old }
    ensures { Moves side (prefixed side) r.old r.new }
{
    rows_and_columns(r, c, side);
    group_sums(&c[..], y, z, side);
    modify(&c[..], &y[..], z, side);
    finish(r, &c[..], z, side);
}

// The three other lanes have room for so many words: to clear lanes that are much too long takes longer than the moves of a small board.
fn sum_within<const N: usize>(words: &mut [u32], side: usize)
    requires fits_board { FitsBoard side (length words.old) }
    requires room { length words.old ≤ N }
    requires few { N ≤ 4096 }
    ensures { Moves side (prefixed side) words.old words.new }
{
    let mut c = [0u32; N];
    let mut y = [0u32; N];
    let mut z = [0u32; N];
    let n = words.len();
    prefix_lanes(words, &mut c[..n], &mut y[..n], &mut z[..n], side);
}

// The prefix sums of a lane of N words at most, with room for N: of other words, and of a room beyond a board's, they stay as they are.
// Room for 4,096 words is touched page by page at every call, which takes longer than the moves of a small board.
pub fn prefix_within<const N: usize>(side: usize, words: &mut [u32])
    ensures { words.new ≡ cond (leb (length words.old) N && leb N 4096) (prefix_sum_lane side words.old) words.old }
{
    if N <= 4096 && words.len() <= N && is_board(side, words.len()) {
        sum_within::<N>(words, side);
    }
}

// Each word becomes the sum of the words up to it, modulo 2^32.
pub fn prefix_words(side: usize, words: &mut [u32])
    ensures { words.new ≡ prefix_sum_lane side words.old }
{
    if words.len() <= 256 {
        prefix_within::<256>(side, words);
    } else {
        prefix_within::<4096>(side, words);
    }
}
