// What a cell holds: a record, and a second one in the spare slot.
#![tactic(auto)]

ghost use Rattle.std.specs.Prelude.{◌≡◌};
ghost use Rattle.slots.specs.Cells.{empty as empty_of, alone as alone_of, joined as joined_of};
ghost use Rattle.slots.specs.Lanes.{records_in};

use array::lent::LentSlots;

// A record: its word, its mark (1, or 0 where there is none) and its aim.
#[derive(Clone, Copy, Debug, PartialEq, Eq)]
pub struct Rec {
    pub word: u32,
    pub mark: u8,
    pub aim: u16,
}

// A cell: its record, and a second one.
#[derive(Clone, Copy, Debug, PartialEq, Eq)]
pub struct Cell {
    pub front: Rec,
    pub spare: Rec,
}

const NOTHING: Rec = Rec {
    word: 0,
    mark: 0,
    aim: 0,
};

// A cell with one record.
fn alone(x: Rec) -> Cell
    ensures { result ≡ alone_of x }
{
    Cell {
        front: x,
        spare: NOTHING,
    }
}

// A cell with no record.
pub fn empty() -> Cell
    ensures { result ≡ empty_of }
{
    alone(NOTHING)
}

// A cell with a record put in: of two the one with the smaller aim is in front.
#[tactic(auto, unfolding(crate::specs::Cells::joined))]
pub fn joined(c: Cell, x: Rec) -> Cell
    ensures { result ≡ joined_of c x }
{
    if x.mark == 0 {
        return c;
    }
    let front = c.front;
    if front.mark == 0 {
        return alone(x);
    }
    if x.aim < front.aim {
        return Cell {
            front: x,
            spare: front,
        };
    }
    Cell { front, spare: x }
}

// The record in cell i of three lanes. Behind a lane's end every number is 0.
pub fn record_at(slots: &LentSlots, i: usize) -> Rec
    ensures { result ≡ records_in slots.now i }
{
    Rec {
        word: slots.words.get(i).copied().unwrap_or(0),
        mark: slots.marks.get(i).copied().unwrap_or(0),
        aim: slots.aims.get(i).copied().unwrap_or(0),
    }
}
