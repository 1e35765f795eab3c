// The move list of each operation, in nine runs; a shorter list has runs of no moves.
#![tactic(auto)]

ghost use Rattle.std.specs.Prelude.{◌≡◌, cond, map, ◌-◌, ◌<◌, ◌≤◌};
ghost use Rattle.runs.specs.Runs.{whole as whole_of};
ghost use Rattle.array.specs.Cells.{is_side, groups as groups_of};
ghost use Rattle.lists.specs.Lists.{total_moves, spread_runs, broadcast_runs, data_sum_runs, prefix_sum_runs, concentrate_runs, distribute_runs, runs_of};

use array::cells::{is_cell, is_side};
use array::moves::{DOWN, LEFT, Move, RIGHT, SWAP, UP, Way};
use runs::{Run, no_runs};

// How many moves prefix sum, rank, concentrate and distribute have on a board, and 0 where no board has the side.
pub fn total_moves(side: usize) -> usize
    ensures { result ≡ cond (is_side side) (total_moves side) 0 }
{
    if !is_side(side) {
        return 0;
    }
    7 * (side - 1) + 2
}

// A run the whole way: n electronic moves, or one swap.
fn whole(n: usize, step: Move) -> Run
    ensures { result ≡ whole_of n step }
{
    match step {
        Move::Swap => Run::swapping(1),
        Move::Electronic(way) => Run::along(way, n),
    }
}

// A list whose runs go the whole way, with its swaps made once.
fn whole_runs(side: usize, steps: [Move; 9]) -> [Run; 9]
    ensures { result ≡ map (whole_of (side - 1)) steps }
{
    let last = side.saturating_sub(1);
    steps.map(|step| whole(last, step))
}

pub fn data_sum_runs(side: usize) -> [Run; 9]
    ensures { result ≡ data_sum_runs side }
{
    whole_runs(side, [RIGHT, LEFT, DOWN, UP, SWAP, RIGHT, LEFT, DOWN, UP])
}

// Of prefix sum and of rank.
pub fn prefix_sum_runs(side: usize) -> [Run; 9]
    ensures { result ≡ prefix_sum_runs side }
{
    whole_runs(side, [RIGHT, DOWN, SWAP, RIGHT, DOWN, LEFT, SWAP, UP, LEFT])
}

pub fn concentrate_runs(side: usize) -> [Run; 9]
    ensures { result ≡ concentrate_runs side }
{
    whole_runs(side, [RIGHT, LEFT, UP, DOWN, SWAP, RIGHT, LEFT, UP, SWAP])
}

pub fn distribute_runs(side: usize) -> [Run; 9]
    ensures { result ≡ distribute_runs side }
{
    whole_runs(side, [SWAP, DOWN, RIGHT, LEFT, SWAP, UP, DOWN, RIGHT, LEFT])
}

// What the records are moved for: to the front, or back to the cells that their aims name.
#[derive(Clone, Copy, Debug, PartialEq, Eq)]
pub enum Trip {
    Concentrate,
    Distribute,
}

// The list of a trip.
pub fn runs_of(trip: Trip, side: usize) -> [Run; 9]
    ensures { result ≡ runs_of trip side }
{
    match trip {
        Trip::Concentrate => concentrate_runs(side),
        Trip::Distribute => distribute_runs(side),
    }
}

// From place p to its whole group.
fn spread_runs(side: usize, p: usize) -> [Run; 4]
    requires { (1 ≤ side) × (p < groups_of side) }
    ensures { result ≡ spread_runs side p }
{
    let last = side - 1;
    let row = p / side;
    let column = p % side;
    [
        Run::along(Way::Left, column),
        Run::along(Way::Right, last - column),
        Run::along(Way::Up, row),
        Run::along(Way::Down, last - row),
    ]
}

pub fn broadcast_runs(side: usize, cell: usize) -> [Run; 9]
    ensures { result ≡ broadcast_runs side cell }
{
    if !is_cell(side, cell) {
        return no_runs();
    }
    let groups = side * side;
    let a = spread_runs(side, cell % groups);
    let b = spread_runs(side, cell / groups);
    [
        a[0],
        a[1],
        a[2],
        a[3],
        Run::swapping(1),
        b[0],
        b[1],
        b[2],
        b[3],
    ]
}
