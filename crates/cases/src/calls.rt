// Each stepping entry is called here and nowhere else; its run is printed: what is called, its answer, and what it leaves. The plain entry is run
// behind it on the same lanes.
ghost use Rattle.std.specs.Prelude.{◌≤◌};

use crate::frames::{Frame, lane_cells};
use crate::plainly::{plain_rank, plain_records, plain_words};
use crate::show;
use answers::{Moves, Refusal};
use array::lent::{LentLanes, LentSlots};
use lists::Trip;
use ranking::rank;
use shiftlists::{Axis, Edge};
use stretches::{group_words, group_words_answer};

// An operation on words.
#[derive(Clone, Copy, Debug, PartialEq, Eq)]
pub(crate) enum Operation {
    Broadcast(usize),
    DataSum,
    PrefixSum,
    Shift(Axis, Edge, i32),
}

fn on_words(
    operation: Operation,
    side: usize,
    words: &mut [u32],
    codes: &mut [u8],
) -> Result<Moves, Refusal> {
    match operation {
        Operation::Broadcast(cell) => words::broadcast(side, cell, words, codes),
        Operation::DataSum => words::data_sum(side, words, codes),
        Operation::PrefixSum => words::prefix_sum(side, words, codes),
        Operation::Shift(axis, edge, k) => words::shift(side, axis, edge, k, words, codes),
    }
}

// A run of records: whole, with logs of so many entries, or up to a cut, which has no logs.
#[derive(Clone, Copy, Debug, PartialEq, Eq)]
pub(crate) enum RecordsRun {
    Whole(Trip, usize),
    Cut(Trip, usize),
}

impl RecordsRun {
    // How many entries of its logs are lent.
    fn log(self) -> usize
        ensures { result ≤ 4096 }
    {
        match self {
            RecordsRun::Whole(_, log) => log.min(4096),
            RecordsRun::Cut(..) => 0,
        }
    }
}

fn on_records(
    run: RecordsRun,
    side: usize,
    lanes: &mut LentLanes,
    codes: &mut [u8],
    moved: &mut [u16],
) -> Result<Moves, Refusal> {
    match run {
        RecordsRun::Whole(trip, _) => records::run(trip, side, lanes, codes, moved),
        RecordsRun::Cut(trip, cut) => records::run_cut(trip, side, cut, lanes),
    }
}

// A run on the lanes of a frame, with spare lanes of 7s: its answer, and what it leaves.
pub(crate) fn on_lanes<F: FnOnce(&mut LentLanes) -> Result<Moves, Refusal>>(
    rt: &impl Print,
    side: usize,
    frame: Frame,
    run: F,
)
    requires { (lanes : _) → F.pre run lanes }
{
    let n = lane_cells(side);
    let mut words = frame.words;
    let mut marks = frame.marks;
    let mut aims = frame.aims;
    let mut spare_words = [7u32; 4096];
    let mut spare_marks = [7u8; 4096];
    let mut spare_aims = [7u16; 4096];
    let mut front = LentSlots {
        words: &mut words[..n],
        marks: &mut marks[..n],
        aims: &mut aims[..n],
    };
    let mut spare = LentSlots {
        words: &mut spare_words[..n],
        marks: &mut spare_marks[..n],
        aims: &mut spare_aims[..n],
    };
    let mut lanes = LentLanes {
        front: &mut front,
        spare: &mut spare,
    };
    show::answer(rt, run(&mut lanes));
    show::slots(rt, &words[..n], &marks[..n], &aims[..n]);
    let _ = println!(rt; "spare");
    show::slots(rt, &spare_words[..n], &spare_marks[..n], &spare_aims[..n]);
}

// With logs of 9s.
fn step_records(rt: &impl Print, run: RecordsRun, side: usize, frame: Frame) {
    let m = run.log();
    let mut codes = [9u8; 4096];
    let mut moved = [9u16; 4096];
    let _ = print!(rt; "{run}");
    show::lent(rt, side, lane_cells(side), m);
    on_lanes(rt, side, frame, |lanes| {
        on_records(run, side, lanes, &mut codes[..m], &mut moved[..m])
    });
    if let RecordsRun::Whole(..) = run {
        show::line(rt, "codes", &codes[..m]);
        show::line(rt, "moved", &moved[..m]);
    }
}

// A run up to a cut has no plain form.
pub(crate) fn records_run(rt: &impl Print, run: RecordsRun, side: usize, frame: Frame) {
    step_records(rt, run, side, frame);
    if let RecordsRun::Whole(trip, _) = run {
        plain_records(rt, trip, side, frame);
    }
}

// Rank on the marks of a board, with a log of 9s: gives the aims as well.
pub(crate) fn rank_run(
    rt: &impl Print,
    side: usize,
    log: usize,
    marks: &[u8; 4096],
) -> [u16; 4096] {
    let n = lane_cells(side);
    let m = log.min(4096);
    let mut aims = [9u16; 4096];
    let mut codes = [9u8; 4096];
    let outcome = rank(side, &marks[..n], &mut aims[..n], &mut codes[..m]);
    let _ = print!(rt; "rank");
    show::lent(rt, side, n, m);
    show::answer(rt, outcome);
    show::line(rt, "codes", &codes[..m]);
    show::line(rt, "aims", &aims[..n]);
    plain_rank(rt, side, marks);
    aims
}

// An operation on the first words of a lane, with a log of 9s.
pub(crate) fn words_run(
    rt: &impl Print,
    operation: Operation,
    side: usize,
    lane: usize,
    log: usize,
    words: [u32; 4096],
) {
    let n = lane.min(4096);
    let m = log.min(4096);
    let mut stepped = words;
    let mut codes = [9u8; 4096];
    let outcome = on_words(operation, side, &mut stepped[..n], &mut codes[..m]);
    let _ = print!(rt; "{operation}");
    show::lent(rt, side, n, m);
    show::answer(rt, outcome);
    show::line(rt, "codes", &codes[..m]);
    show::line(rt, "words", &stepped[..n]);
    plain_words(rt, operation, side, lane, words);
}

// The stretch of a group as it is handed back, and all words.
pub(crate) fn group_run(
    rt: &impl Print,
    side: usize,
    group: usize,
    lane: usize,
    words: &[u32; 4096],
) {
    let n = lane.min(4096);
    let _ = print!(rt; "group words\t{group}");
    show::lent(rt, side, n, 0);
    show::answer(rt, group_words_answer(side, group, &words[..n]));
    show::line(rt, "part", group_words(side, group, &words[..n]));
    show::line(rt, "words", &words[..n]);
}
