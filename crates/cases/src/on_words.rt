// The operations on words, and a group's own stretch of words.
ghost use Rattle.std.specs.Prelude.{◌≤◌};

use crate::calls::{Operation, group_run, words_run};
use crate::frames::{counting_up, lane_cells};
use shiftlists::{Axis, Edge};

pub(crate) fn starred(rt: &impl Print) {
    let mut wrapping = [0u32; 4096];
    wrapping[0] = u32::MAX;
    wrapping[1] = 2;
    words_run(rt, Operation::PrefixSum, 2, 16, 9, wrapping);
    words_run(rt, Operation::DataSum, 2, 16, 9, wrapping);
    let indexes = counting_up(0);
    words_run(
        rt,
        Operation::Shift(Axis::MeshRow, Edge::ZeroFill, 1),
        2,
        16,
        1,
        indexes,
    );
    words_run(
        rt,
        Operation::Shift(Axis::GroupColumn, Edge::Circular, 1),
        2,
        16,
        4,
        indexes,
    );
}

// Words that count up from 1.
fn run_counting_up(rt: &impl Print, operation: Operation, side: usize, lane: usize, log: usize) {
    words_run(rt, operation, side, lane, log, counting_up(1));
}

// From the ends of the board and of its first group, from a cell between, and from past the end.
fn broadcasts(rt: &impl Print, side: usize, groups: usize)
    requires { 1 ≤ groups }
{
    let n = lane_cells(side);
    run_counting_up(rt, Operation::Broadcast(0), side, n, 64);
    run_counting_up(rt, Operation::Broadcast(groups - 1), side, n, 64);
    run_counting_up(rt, Operation::Broadcast(n * 11 / 17), side, n, 64);
    run_counting_up(rt, Operation::Broadcast(n - 1), side, n, 64);
    run_counting_up(rt, Operation::Broadcast(n), side, n, 64);
}

// The words come near 2^32, and so their sums pass it.
fn sums(rt: &impl Print, side: usize) {
    let n = lane_cells(side);
    let words = counting_up(4294967290);
    words_run(rt, Operation::DataSum, side, n, 64, words);
    words_run(rt, Operation::PrefixSum, side, n, 64, words);
}

// By every distance, and by one further both ways.
fn shifts_by(rt: &impl Print, side: usize, axis: Axis, edge: Edge)
    requires { side ≤ 8 }
{
    let n = lane_cells(side);
    let far = side as i32;
    for k in -far..=far {
        run_counting_up(rt, Operation::Shift(axis, edge, k), side, n, 10);
    }
}

const AXES: [Axis; 4] = [
    Axis::MeshRow,
    Axis::MeshColumn,
    Axis::GroupRow,
    Axis::GroupColumn,
];

fn shifts(rt: &impl Print, side: usize)
    requires { side ≤ 8 }
{
    for axis in AXES {
        shifts_by(rt, side, axis, Edge::ZeroFill);
        shifts_by(rt, side, axis, Edge::Circular);
    }
}

fn stretch(rt: &impl Print, side: usize, group: usize, lane: usize) {
    group_run(rt, side, group, lane, &counting_up(1));
}

// The first group, the last, one past it and one far past it.
fn stretches(rt: &impl Print, side: usize, groups: usize)
    requires { 1 ≤ groups }
{
    let n = lane_cells(side);
    stretch(rt, side, 0, n);
    stretch(rt, side, groups - 1, n);
    stretch(rt, side, groups, n);
    stretch(rt, side, usize::MAX, n);
}

pub(crate) fn at_every_side(rt: &impl Print) {
    for side in 1..=8usize {
        let groups = side * side;
        broadcasts(rt, side, groups);
        sums(rt, side);
        shifts(rt, side);
        stretches(rt, side, groups);
    }
}

// On a board of side 2: lanes and logs of other lengths than asked for, and beside them good ones.
fn lengths(rt: &impl Print, operation: Operation, moves: usize)
    requires { (1 ≤ moves) × (moves ≤ 9) }
{
    run_counting_up(rt, operation, 2, 15, moves);
    run_counting_up(rt, operation, 2, 17, 0);
    run_counting_up(rt, operation, 2, 16, 0);
    run_counting_up(rt, operation, 2, 16, moves - 1);
    run_counting_up(rt, operation, 2, 16, moves);
    run_counting_up(rt, operation, 2, 16, moves + 1);
}

// Logs of no, one and two entries: on a mesh there is no move to log, on groups the two swaps.
fn circular_by_nothing(rt: &impl Print, side: usize, axis: Axis) {
    let n = lane_cells(side);
    let by_nothing = Operation::Shift(axis, Edge::Circular, 0);
    for log in 0..=2 {
        run_counting_up(rt, by_nothing, side, n, log);
    }
}

fn circulars_by_nothing(rt: &impl Print, side: usize) {
    for axis in AXES {
        circular_by_nothing(rt, side, axis);
    }
}

// Arguments far past the last, whose list counts as empty, so that no log is too short for it.
fn far_arguments(rt: &impl Print) {
    run_counting_up(rt, Operation::Broadcast(usize::MAX), 2, 16, 0);
    run_counting_up(rt, Operation::Broadcast(16), 2, 15, 0);
    run_counting_up(
        rt,
        Operation::Shift(Axis::MeshRow, Edge::ZeroFill, i32::MAX),
        2,
        16,
        0,
    );
    run_counting_up(
        rt,
        Operation::Shift(Axis::GroupRow, Edge::Circular, i32::MIN),
        2,
        16,
        0,
    );
}

// The lanes of side 8, told another side.
fn refused_side(rt: &impl Print, side: usize) {
    run_counting_up(rt, Operation::Broadcast(0), side, 4096, 64);
    run_counting_up(rt, Operation::DataSum, side, 4096, 64);
    run_counting_up(rt, Operation::PrefixSum, side, 4096, 64);
    run_counting_up(
        rt,
        Operation::Shift(Axis::MeshRow, Edge::ZeroFill, 0),
        side,
        4096,
        64,
    );
    stretch(rt, side, 0, 4096);
}

pub(crate) fn refused_words(rt: &impl Print) {
    lengths(rt, Operation::Broadcast(15), 5);
    lengths(rt, Operation::DataSum, 9);
    lengths(rt, Operation::PrefixSum, 9);
    lengths(rt, Operation::Shift(Axis::MeshRow, Edge::ZeroFill, 1), 1);
    lengths(
        rt,
        Operation::Shift(Axis::GroupColumn, Edge::Circular, 1),
        4,
    );
    for side in [1, 2, 8] {
        circulars_by_nothing(rt, side);
    }
    far_arguments(rt);
    stretch(rt, 2, 0, 15);
    stretch(rt, 2, 4, 17);
    for side in [0, 9, usize::MAX] {
        refused_side(rt, side);
    }
}
