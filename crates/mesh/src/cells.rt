// The slots of a line, the front ones or the spare ones: looked at, taken out of their three lanes and laid back.
ghost use Rattle.std.specs.Prelude.{◌≡◌, not};
ghost use Rattle.array.specs.Lent.{SameSlots};
ghost use Rattle.slots.specs.Lanes.{records_in};
ghost use Rattle.mesh.specs.Lines.{none_leaves};
ghost use Rattle.mesh.specs.Inside.{line_at, LineIn, Taken, LaidSlots};

use crate::lines::{BoardRule, goes};
use array::lent::LentSlots;
use slots::{Rec, empty, record_at};

// Whether a record leaves its cell.
pub(crate) fn any_goes(by: BoardRule, start: usize, slots: &LentSlots) -> bool
    requires { LineIn by.rule start slots.now }
    ensures { result ≡ not (none_leaves by.rule (line_at by.rule start (records_in slots.now)) by.rule.side) }
{
    (0..by.rule.side).any(|p| {
        let at = start + p * by.rule.stride;
        goes(by, p, slots.marks[at], slots.aims[at])
    })
}

pub(crate) fn take_slots(by: BoardRule, start: usize, slots: &LentSlots) -> [Rec; 8]
    requires { LineIn by.rule start slots.now }
    ensures { Taken by.rule start (records_in slots.now) result }
{
    let none = empty().front;
    let mut line = [none; 8];
    for (p, record) in line[..by.rule.side].iter_mut().enumerate() {
        *record = record_at(slots, start + p * by.rule.stride);
    }
    line
}

pub(crate) fn lay_slots(by: BoardRule, start: usize, line: [Rec; 8], slots: &mut LentSlots)
    requires { LineIn by.rule start slots.old }
    ensures same { SameSlots slots.old slots.new }
    ensures laid { LaidSlots by.rule start line (records_in slots.old) (records_in slots.new) }
{
    for (p, x) in line[..by.rule.side].iter().enumerate() {
        let at = start + p * by.rule.stride;
        slots.words[at] = x.word;
        slots.marks[at] = x.mark;
        slots.aims[at] = x.aim;
    }
}
