// A run of electronic moves of all cells, line by line. All groups make the same moves, each in its own stretch of the lanes.
#![tactic(auto)]

mod cells;
mod lines;

ghost use Rattle.std.specs.Prelude.{◌≡◌, ℕ, ◌+◌, ◌*◌, ◌≤◌, true};
ghost use Rattle.array.specs.Cells.{is_side, groups, cells};
ghost use Rattle.array.specs.Lent.{SameSlots, SameLanes};
ghost use Rattle.slots.specs.Lanes.{FromTo, Long, cells_in, lent_cells, LongSlots, LongLent};
ghost use Rattle.mesh.specs.Mesh.{unit_of, line_rule_of, RanAllLent};
ghost use Rattle.mesh.specs.Inside.{share_of, Roomy, line_step, moving_groups, RanGroup, RanPart};

use crate::lines::{BoardRule, LineRule, run_line};
use array::lent::{LentLanes, LentSlots};
use array::moves::Way;

// A run one way, as far as it is made: whether a record heads for its aim mod N (low) or div N, whether it goes as late as it can, how many
// moves the run has and how many of them are made.
#[derive(Clone, Copy, Debug, PartialEq, Eq)]
pub struct Leg {
    pub side: usize,
    pub way: Way,
    pub low: bool,
    pub late: bool,
    pub times: usize,
    pub made: usize,
}

// The weight of the digit of an aim that names a cell of a line.
fn unit(side: usize, low: bool, stride: usize) -> usize
    requires { (side ≤ 8) × (stride ≤ 8) }
    ensures { result ≡ unit_of side low stride }
{
    if low { stride } else { stride * (side * side) }
}

// The rule that every line goes by.
fn rule_of(leg: Leg) -> LineRule
    requires { (1 ≤ leg.side) × (leg.side ≤ 8) }
    ensures { result ≡ line_rule_of leg }
{
    let stride = leg.way.stride(leg.side);
    let up = leg.way.is_forth();
    LineRule {
        side: leg.side,
        stride,
        unit: unit(leg.side, leg.low, stride),
        up,
        down: !up,
        late: leg.late,
        times: leg.times,
        made: leg.made.min(leg.times),
    }
}

// 2^32 over the period of the digit.
fn share(t: LineRule) -> usize
    requires { (1 ≤ t.side * t.unit) × (t.side * t.unit ≤ 4096) }
    ensures { result ≡ share_of (t.side * t.unit) }
{
    4294967296 / (t.side * t.unit) + 1
}

// That rule beside the share of its digit: what every run of a line is made by.
fn board_rule(leg: Leg) -> BoardRule
    requires { is_side leg.side ≡ true }
    ensures { result.rule ≡ line_rule_of leg }
{
    let rule = rule_of(leg);
    BoardRule {
        rule,
        share: share(rule),
    }
}

// From one line of a group to the next.
fn line_step(t: LineRule) -> usize
    ensures { result ≡ line_step t }
{
    if t.stride == 1 { t.side } else { 1 }
}

// How many groups have something to do: none, where no move is made.
fn moving_groups(t: LineRule) -> usize
    requires { t.side ≤ 8 }
    ensures { result ≡ moving_groups t }
{
    if t.made == 0 {
        return 0;
    }
    t.side * t.side
}

// All lines of a group, of lanes that are its own.
fn run_lines(by: BoardRule, counts: &mut [usize; 8], lanes: &mut LentLanes)
    requires roomy { Roomy 16384 counts }
    requires long { LongLent (groups by.rule.side) lanes.old }
    ensures same { SameLanes lanes.old lanes.new }
    ensures ran { RanGroup by.rule counts (lent_cells lanes.old) (lent_cells lanes.new) }
{
    let step = line_step(by.rule);
    for l in 0..by.rule.side {
        run_line(by, l * step, counts, lanes);
    }
}

// The same, where the group's own stretch of each lane is lent.
fn run_group(
    by: BoardRule,
    counts: &mut [usize; 8],
    words: &mut [u32],
    marks: &mut [u8],
    aims: &mut [u16],
    spare_words: &mut [u32],
    spare_marks: &mut [u8],
    spare_aims: &mut [u16],
)
    requires roomy { Roomy 16384 counts }
    requires long { Long (groups by.rule.side) words marks aims spare_words spare_marks spare_aims }
    ensures { FromTo (RanGroup by.rule counts) words marks aims spare_words spare_marks spare_aims }
{
    let mut front = LentSlots { words, marks, aims };
    let mut spare = LentSlots {
        words: spare_words,
        marks: spare_marks,
        aims: spare_aims,
    };
    let mut lanes = LentLanes {
        front: &mut front,
        spare: &mut spare,
    };
    run_lines(by, counts, &mut lanes);
}

// The same in the group whose stretches start at base.
fn run_stretch(
    by: BoardRule,
    base: usize,
    counts: &mut [usize; 8],
    words: &mut [u32],
    marks: &mut [u8],
    aims: &mut [u16],
    spare_words: &mut [u32],
    spare_marks: &mut [u8],
    spare_aims: &mut [u16],
)
    requires roomy { Roomy 16384 counts }
    requires within { base + groups by.rule.side ≤ cells by.rule.side }
    requires by_index { (g : ℕ) × (base ≡ g * groups by.rule.side) }
    requires long { Long (cells by.rule.side) words marks aims spare_words spare_marks spare_aims }
    ensures { FromTo (RanPart by.rule base counts) words marks aims spare_words spare_marks spare_aims }
{
    let end = base + by.rule.side * by.rule.side;
    run_group(
        by,
        counts,
        &mut words[base..end],
        &mut marks[base..end],
        &mut aims[base..end],
        &mut spare_words[base..end],
        &mut spare_marks[base..end],
        &mut spare_aims[base..end],
    );
}

// The same of lanes that are lent slot by slot.
fn run_part(
    by: BoardRule,
    base: usize,
    counts: &mut [usize; 8],
    front: &mut LentSlots,
    spare: &mut LentSlots,
)
    requires roomy { Roomy 16384 counts }
    requires within { base + groups by.rule.side ≤ cells by.rule.side }
    requires by_index { (g : ℕ) × (base ≡ g * groups by.rule.side) }
    requires long { LongSlots (cells by.rule.side) front.old spare.old }
    ensures front { SameSlots front.old front.new }
    ensures spare { SameSlots spare.old spare.new }
    ensures ran { RanPart by.rule base counts (cells_in front.old spare.old) (cells_in front.new spare.new) }
{
    run_stretch(
        by,
        base,
        counts,
        front.words,
        front.marks,
        front.aims,
        spare.words,
        spare.marks,
        spare.aims,
    );
}

// A run of electronic moves of a board's six lanes, as far as it is made; how many records went that had 0 to 7 cells to go. Lanes that are not
// a board's stay as they are.
pub fn run_all(leg: Leg, lanes: &mut LentLanes) -> [usize; 8]
    ensures same { SameLanes lanes.old lanes.new }
    ensures ran { RanAllLent leg lanes result }
{
    let mut counts = [0usize; 8];
    if !lanes.fit(leg.side) {
        return counts;
    }
    let by = board_rule(leg);
    let size = by.rule.side * by.rule.side;
    for g in 0..moving_groups(by.rule) {
        run_part(by, g * size, &mut counts, lanes.front, lanes.spare);
    }
    counts
}
