// Each plain entry is called here and nowhere else, on the lanes of the stepping run before it: its answer, and what it leaves.
use crate::calls::{Operation, on_lanes};
use crate::frames::{Frame, lane_cells};
use crate::show;
use answers::{Moves, Refusal};
use lists::Trip;

fn on_words(operation: Operation, side: usize, words: &mut [u32]) -> Result<Moves, Refusal> {
    match operation {
        Operation::Broadcast(cell) => plainwords::broadcast(side, cell, words),
        Operation::DataSum => plainwords::data_sum(side, words),
        Operation::PrefixSum => plainwords::prefix_sum(side, words),
        Operation::Shift(axis, edge, k) => plainwords::shift(side, axis, edge, k, words),
    }
}

pub(crate) fn plain_words(
    rt: &impl Print,
    operation: Operation,
    side: usize,
    lane: usize,
    mut words: [u32; 4096],
) {
    let n = lane.min(4096);
    let _ = println!(rt; "plain");
    show::answer(rt, on_words(operation, side, &mut words[..n]));
    show::line(rt, "words", &words[..n]);
}

// The aims hold 9s before.
pub(crate) fn plain_rank(rt: &impl Print, side: usize, marks: &[u8; 4096]) {
    let n = lane_cells(side);
    let mut aims = [9u16; 4096];
    let _ = println!(rt; "plain");
    show::answer(rt, plainrecords::rank(side, &marks[..n], &mut aims[..n]));
    show::line(rt, "aims", &aims[..n]);
}

pub(crate) fn plain_records(rt: &impl Print, trip: Trip, side: usize, frame: Frame) {
    let _ = println!(rt; "plain");
    on_lanes(
        rt,
        side,
        frame,
        |lanes| plainrecords::run(trip, side, lanes),
    );
}
