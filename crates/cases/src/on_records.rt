// Rank, concentrate and distribute.
use crate::calls::{RecordsRun, rank_run, records_run};
use crate::frames::{Frame, counting_up, gathered, marks_at, marks_of};
use lists::{Trip, total_moves};

const ALL_MARKED: [u8; 4096] = [1; 4096];

// After move 1, and after all.
fn both(rt: &impl Print, trip: Trip, side: usize, log: usize, frame: Frame) {
    records_run(rt, RecordsRun::Cut(trip, 1), side, frame);
    records_run(rt, RecordsRun::Whole(trip, log), side, frame);
}

fn concentrated(rt: &impl Print, side: usize, log: usize, words: [u32; 4096], marks: [u8; 4096]) {
    let aims = rank_run(rt, side, log, &marks);
    both(
        rt,
        Trip::Concentrate,
        side,
        log,
        Frame { words, marks, aims },
    );
}

fn job(rt: &impl Print) {
    let mut words = [0u32; 4096];
    words[1] = 70;
    words[6] = 71;
    words[11] = 72;
    let _ = println!(rt; "case\tthe job of the scope");
    concentrated(rt, 2, 9, words, marks_at(&[1, 6, 11]));
}

fn distributed(rt: &impl Print) {
    let frame = gathered(2, 100, &marks_at(&[1, 6, 11]));
    let _ = println!(rt; "case\tdistribute to 1, 6, 11");
    both(rt, Trip::Distribute, 2, 9, frame);
}

pub(crate) fn starred(rt: &impl Print) {
    let words = counting_up(100);
    let _ = println!(rt; "case\tside 1, one cell marked");
    concentrated(rt, 1, 2, words, ALL_MARKED);
    let _ = println!(rt; "case\tside 2, marks at 0, 4, 5");
    concentrated(rt, 2, 9, words, marks_at(&[0, 4, 5]));
    job(rt);
    distributed(rt);
    let _ = println!(rt; "case\tside 2, all marked");
    concentrated(rt, 2, 9, words, ALL_MARKED);
    let _ = println!(rt; "case\tside 2, none marked");
    concentrated(rt, 2, 9, words, [0; 4096]);
}

fn at_side(rt: &impl Print, side: usize, frame: Frame) {
    rank_run(rt, side, 51, &ALL_MARKED);
    records_run(rt, RecordsRun::Whole(Trip::Concentrate, 51), side, frame);
    records_run(rt, RecordsRun::Whole(Trip::Distribute, 51), side, frame);
    records_run(rt, RecordsRun::Cut(Trip::Concentrate, 0), side, frame);
    records_run(rt, RecordsRun::Cut(Trip::Distribute, 0), side, frame);
}

fn at_cut(rt: &impl Print, cut: usize, frame: Frame) {
    records_run(rt, RecordsRun::Cut(Trip::Concentrate, cut), 8, frame);
    records_run(rt, RecordsRun::Cut(Trip::Distribute, cut), 8, frame);
}

// The sides and the cuts at the edge of what is accepted. All cells of side 8 are marked, each aimed at itself, which is its rank: concentrate
// and distribute take them.
pub(crate) fn edges(rt: &impl Print) {
    let frame = Frame {
        words: counting_up(1),
        marks: ALL_MARKED,
        aims: rank_run(rt, 8, 51, &ALL_MARKED),
    };
    for side in [8, 9, 0] {
        at_side(rt, side, frame);
    }
    for cut in [51, 52] {
        at_cut(rt, cut, frame);
    }
}

// After every cut, 0 to all.
fn states(rt: &impl Print, trip: Trip, side: usize, frame: Frame) {
    for cut in 0..=total_moves(side) {
        records_run(rt, RecordsRun::Cut(trip, cut), side, frame);
    }
}

// The states of concentrate, and of distribute back to the same cells.
fn frame(rt: &impl Print, side: usize, kind: u8) {
    let marks = marks_of(kind);
    let aims = rank_run(rt, side, 64, &marks);
    let words = counting_up(1000);
    states(rt, Trip::Concentrate, side, Frame { words, marks, aims });
    states(rt, Trip::Distribute, side, gathered(side, 1000, &marks));
}

// Each a side and a kind of marks.
const FRAMES: [(usize, u8); 8] = [
    (1, 0),
    (2, 0),
    (2, 1),
    (2, 2),
    (3, 1),
    (3, 4),
    (4, 6),
    (4, 30),
];

pub(crate) fn frames(rt: &impl Print) {
    for (side, kind) in FRAMES {
        frame(rt, side, kind);
    }
}
