// A run of moves on one line of cells, a row or a column of a group. Each record is put down where all its moves
// of the run take it: so no cell ever holds three on the way, whichever way the others go.
ghost use Rattle.std.specs.Prelude.{◌≡◌, not, ℕ, ◌*◌, ◌<◌, ◌≤◌, true};
ghost use Rattle.array.specs.Cells.{is_side};
ghost use Rattle.array.specs.Lent.{SameLanes};
ghost use Rattle.slots.specs.Lanes.{lent_cells};
ghost use Rattle.mesh.specs.Lines.{digit_of, cells_to_go, leaves, is_still};
ghost use Rattle.mesh.specs.Inside.{share_of, is_strided, gone_of, cells_of, line_at, LinesIn, Roomy, Lands, PutDown, LinePutDown, RanLine};

use crate::cells::{any_goes, lay_slots, take_slots};
use array::lent::LentLanes;
use slots::{Cell, Rec, empty, joined};

// What a line goes by: its length, the stride from one cell of it to the next, the weight of the digit of an aim that names a cell of it,
// whether records go up the line and down it, whether they go as late as they can, how many moves the run has and how many are made.
#[derive(Clone, Copy, Debug, PartialEq, Eq)]
pub(crate) struct LineRule {
    pub(crate) side: usize,
    pub(crate) stride: usize,
    pub(crate) unit: usize,
    pub(crate) up: bool,
    pub(crate) down: bool,
    pub(crate) late: bool,
    pub(crate) times: usize,
    pub(crate) made: usize,
}

// The rule of a board's lines, rows or columns of its groups, and 2^32 over the period of the digit: an aim times this share tells, below 2^32,
// how far along its period the aim is. So a record costs no division.
#[derive(Clone, Copy, Debug, PartialEq, Eq)]
pub(crate) struct BoardRule {
    pub(crate) rule: LineRule,
    pub(crate) share: usize,
    ghost side: { is_side rule.side ≡ true },
    ghost unit: { 0 < rule.unit },
    ghost few: { rule.side * rule.unit ≤ 4096 },
    ghost stride: { 0 < rule.stride },
    ghost strided: { is_strided rule ≡ true },
    ghost shared: { share ≡ share_of (rule.side * rule.unit) },
    ghost within: { rule.made ≤ rule.times },
}

// The cell of the line that an aim names.
fn digit(by: BoardRule, aim: u16) -> usize
    ensures digit { result ≡ digit_of by.rule.side by.rule.unit aim }
    ensures on_line { result < by.rule.side }
{
    usize::from(aim) * by.share % 4294967296 * by.rule.side / 4294967296
}

// How many cells a record in cell p has to go that heads for cell h.
fn distance(t: LineRule, p: usize, h: usize) -> usize
    ensures { result ≡ cells_to_go t p h }
{
    if p < h {
        if t.up { h - p } else { 0 }
    } else if t.down {
        p - h
    } else {
        0
    }
}

// How many of them it goes in the moves that are made: as many as these are, or going late as many as are left once it sets off.
fn gone(t: LineRule, d: usize) -> usize
    ensures { result ≡ gone_of t d }
{
    if t.late {
        t.made.saturating_sub(t.times.saturating_sub(d))
    } else {
        d.min(t.made)
    }
}

// Where a record is after the moves that are made: how far it had to go, the cell, and 1 where that is another.
#[derive(Clone, Copy, Debug, PartialEq, Eq)]
struct Arrival {
    far: usize,
    at: usize,
    went: usize,
}

// The landing of a record of cell p that heads for cell h: all that it goes is up the line, or all of it down. No branch hangs on that.
fn landing(by: BoardRule, p: usize, h: usize) -> Arrival
    requires { (p < by.rule.side) × (h < by.rule.side) }
    ensures { Lands by.rule p h result }
{
    let far = distance(by.rule, p, h);
    let on = gone(by.rule, far);
    let up = if p < h { on } else { 0 };
    let down = on - up;
    Arrival {
        far,
        at: (p + up).saturating_sub(down),
        went: on.min(1),
    }
}

// Whether a record of this mark and aim leaves cell p.
pub(crate) fn goes(by: BoardRule, p: usize, mark: u8, aim: u16) -> bool
    ensures { (word : ℕ) → result ≡ leaves by.rule p (record { word = word; mark = mark; aim = aim }) }
{
    if mark == 0 {
        return false;
    }
    0 < gone(by.rule, distance(by.rule, p, digit(by, aim)))
}

// A record of cell p is put down where its moves take it, and counted by the cells that it had to go, if it went.
fn put_down(by: BoardRule, p: usize, x: Rec, line: &mut [Cell; 8], counts: &mut [usize; 8])
    requires on_line { p < by.rule.side }
    requires roomy { Roomy 65552 counts }
    ensures { PutDown by.rule p x counts.old counts.new line.old line.new }
{
    if x.mark != 0 {
        let Arrival { far, at, went } = landing(by, p, digit(by, x.aim));
        counts[far] += went;
        line[at] = joined(line[at], x);
    }
}

// The line after all moves of the run, of the records in its front slots and in its spare ones.
fn put_line(by: BoardRule, fronts: [Rec; 8], spares: [Rec; 8], counts: &mut [usize; 8]) -> [Cell; 8]
    requires { Roomy 65536 counts }
    ensures { LinePutDown by.rule (cells_of fronts spares) by.rule.side counts.old counts.new result }
{
    let none = empty();
    let mut line = [none; 8];
    for p in 0..by.rule.side {
        put_down(by, p, fronts[p], &mut line, counts);
        put_down(by, p, spares[p], &mut line, counts);
    }
    line
}

// Whether a record leaves a cell of the line.
fn line_goes(by: BoardRule, start: usize, lanes: &LentLanes) -> bool
    requires { LinesIn by.rule start lanes.now }
    ensures { result ≡ not (is_still by.rule (line_at by.rule start (lent_cells lanes.now))) }
{
    any_goes(by, start, lanes.front) || any_goes(by, start, lanes.spare)
}

// All moves of the run on the line that starts at a cell. A line that nothing leaves is left alone.
pub(crate) fn run_line(by: BoardRule, start: usize, counts: &mut [usize; 8], lanes: &mut LentLanes)
    requires lines { LinesIn by.rule start lanes.old }
    requires roomy { Roomy 65536 counts }
    ensures same { SameLanes lanes.old lanes.new }
    ensures ran { RanLine by.rule start counts (lent_cells lanes.old) (lent_cells lanes.new) }
{
    if line_goes(by, start, lanes) {
        let fronts = take_slots(by, start, lanes.front);
        let spares = take_slots(by, start, lanes.spare);
        let line = put_line(by, fronts, spares, counts);
        lay_slots(by, start, line.map(|own| own.front), lanes.front);
        lay_slots(by, start, line.map(|own| own.spare), lanes.spare);
    }
}
