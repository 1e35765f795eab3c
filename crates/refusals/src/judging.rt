// The checks of concentrate and distribute, and the runs of the moves that a cut run makes.
ghost use Rattle.std.specs.Prelude.{◌≡◌, ◌&&◌, ◌||◌, ◌<◌, ◌≤◌, [], ◌∷◌, ◌++◌, length, ltb, is_some, unwrap_or};
ghost use Rattle.answers.specs.Judged.{Judged};
ghost use Rattle.lists.specs.declared.Trip.TheVariants.{Concentrate, Distribute};
ghost use Rattle.marks.specs.Marks.{marks_case};
ghost use Rattle.refusals.specs.Cases.{bad_in, aims_of, cut_case, lanes_of};
ghost use Rattle.refusals.specs.Cuts.{first_runs};
ghost use Rattle.refusals.specs.Inside.{OneBoard, GoodMarks, AllMarked, AllRising, LastInside, NoneBad, found_aim};

use crate::Frame;
use answers::{Refusal, check_lane, check_side};
use array::cells::{is_cell, is_side};
use lists::{Trip, total_moves};
use marks::{check_marks, count_marks};
use runs::Run;

// What is known of a cell when its aim is judged: its index and rank, its mark and aim, and the aim before it, which the first has none of.
#[derive(Clone, Copy, Debug, PartialEq, Eq)]
struct Marker {
    cell: usize,
    rank: usize,
    mark: u8,
    aim: u16,
    previous: Option<u16>,
}

// A marked cell is wrong in concentrate where its aim is not its rank.
fn bad_rank(c: Marker) -> bool
    ensures { result ≡ bad_in Concentrate 0 c.cell c.rank c.mark c.aim (unwrap_or c.previous 0) }
{
    c.mark == 1 && usize::from(c.aim) != c.rank
}

// And in distribute where it comes after an unmarked one, or its aim is no cell or not above the aim before it.
fn bad_aim(side: usize, c: Marker) -> bool
    requires { is_some c.previous ≡ ltb 0 c.cell }
    ensures { result ≡ bad_in Distribute side c.cell c.rank c.mark c.aim (unwrap_or c.previous 0) }
{
    c.mark == 1
        && (c.rank < c.cell
            || (!is_cell(side, usize::from(c.aim))
                || c.previous.is_some_and(|previous| c.aim <= previous)))
}

// What is wrong with a cell's aim.
fn bad(trip: Trip, side: usize, c: Marker) -> bool
    requires { is_some c.previous ≡ ltb 0 c.cell }
    ensures { result ≡ bad_in trip side c.cell c.rank c.mark c.aim (unwrap_or c.previous 0) }
{
    match trip {
        Trip::Concentrate => bad_rank(c),
        Trip::Distribute => bad_aim(side, c),
    }
}

// The first cell whose aim is wrong, cell after cell.
fn search_aims(trip: Trip, frame: Frame) -> Option<usize>
    requires { GoodMarks frame.marks.now frame.aims.now }
    ensures { result ≡ found_aim trip frame.entry }
{
    let mut rank: usize = 0;
    let mut previous = None;
    for (cell, (&mark, &aim)) in frame.marks.iter().zip(frame.aims).enumerate() {
        let c = Marker {
            cell,
            rank,
            mark,
            aim,
            previous,
        };
        if bad(trip, frame.side, c) {
            return Some(cell);
        }
        rank += usize::from(mark);
        previous = Some(aim);
    }
    None
}

// Every marked cell's aim is its rank. What is wrong is joined over all cells, so that no branch hangs on a mark. Marks and aims zipped would
// be tested for their end twice a cell, which takes plain concentrate a sixth longer.
fn all_ranked(marks: &[u8], aims: &[u16]) -> bool
    requires { GoodMarks marks.now aims.now }
    ensures { NoneBad Concentrate 0 marks.now aims.now result }
{
    let mut all = true;
    let mut rank: usize = 0;
    for (i, &mark) in marks.iter().enumerate() {
        all &= (mark != 1) | (usize::from(aims[i]) == rank);
        rank += usize::from(mark);
    }
    all
}

// All of these marks are set.
fn all_marked(marks: &[u8]) -> bool
    ensures { AllMarked (length marks.now) marks.now result }
{
    let mut all = true;
    for &mark in marks {
        all &= mark == 1;
    }
    all
}

// These aims rise.
fn all_rising(aims: &[u16]) -> bool
    ensures { AllRising (length aims.now) aims.now result }
{
    let mut all = true;
    for pair in aims.windows(2) {
        all &= pair[0] < pair[1];
    }
    all
}

// The last of these aims is on the board; where there is none, so is it.
fn last_inside(side: usize, aims: &[u16]) -> bool
    ensures { LastInside side (length aims.now) aims.now result }
{
    aims.last()
        .is_none_or(|&aim| is_cell(side, usize::from(aim)))
}

// As many first cells are marked as there are marks, and their aims rise and end on the board.
fn all_aimed(side: usize, marks: &[u8], aims: &[u16]) -> bool
    requires { GoodMarks marks.now aims.now }
    ensures { NoneBad Distribute side marks.now aims.now result }
{
    let count = count_marks(marks);
    let (marks, aims) = (&marks[..count], &aims[..count]);
    all_marked(marks) && (all_rising(aims) && last_inside(side, aims))
}

fn all_good(trip: Trip, frame: Frame) -> bool
    requires { GoodMarks frame.marks.now frame.aims.now }
    ensures { NoneBad trip frame.entry.side frame.entry.marks.now frame.entry.aims.now result }
{
    match trip {
        Trip::Concentrate => all_ranked(frame.marks, frame.aims),
        Trip::Distribute => all_aimed(frame.side, frame.marks, frame.aims),
    }
}

// The first cell whose aim is wrong is looked for only where there is one.
fn check_aims(trip: Trip, frame: Frame) -> Result<(), Refusal>
    requires { GoodMarks frame.marks.now frame.aims.now }
    ensures { Judged (aims_of trip frame.entry ∷ []) result }
{
    if all_good(trip, frame) {
        return Ok(());
    }
    match search_aims(trip, frame) {
        Some(cell) => Err(Refusal::Aim(cell)),
        None => Ok(()),
    }
}

pub(crate) fn check_cut(side: usize, cut: usize) -> Result<(), Refusal>
    ensures { Judged (cut_case side cut ∷ []) result }
{
    if is_side(side) && total_moves(side) < cut {
        Err(Refusal::Cut)
    } else {
        Ok(())
    }
}

// The marks, and then the aims, of lanes of one board.
pub(crate) fn check_marked(trip: Trip, frame: Frame) -> Result<(), Refusal>
    requires { OneBoard frame.marks.now frame.aims.now }
    ensures { Judged (marks_case frame.entry.marks.now ∷ aims_of trip frame.entry ∷ []) result }
{
    check_marks(frame.marks)?;
    check_aims(trip, frame)
}

// The side and six lanes.
pub(crate) fn check_lanes(frame: Frame) -> Result<(), Refusal>
    ensures { Judged (lanes_of frame.entry) result }
{
    let side = frame.side;
    check_side(side)?;
    check_lane(side, frame.sizes.words)?;
    check_lane(side, frame.marks.len())?;
    check_lane(side, frame.aims.len())?;
    check_lane(side, frame.sizes.spare_words)?;
    check_lane(side, frame.sizes.spare_marks)?;
    check_lane(side, frame.sizes.spare_aims)
}

// All of it but the logs and the cut.
pub(crate) fn check_frame(trip: Trip, frame: Frame) -> Result<(), Refusal>
    ensures { Judged (lanes_of frame.entry ++ (marks_case frame.entry.marks.now ∷ aims_of trip frame.entry ∷ [])) result }
{
    check_lanes(frame)?;
    check_marked(trip, frame)
}

// The runs of the first moves of a list.
pub(crate) fn first_runs(runs: [Run; 9], cut: usize) -> [Run; 9]
    ensures { result ≡ first_runs cut runs }
{
    let mut firsts = runs;
    let mut remaining = cut;
    for run in firsts.iter_mut() {
        run.times = remaining.min(run.times);
        remaining -= run.times;
    }
    firsts
}
