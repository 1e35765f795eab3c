// The records of a board, in their order.
ghost use Rattle.std.specs.Prelude.{◌≡◌, [], ◌∷◌, ◌++◌, ◌≤◌, ◌<◌, length};
ghost use Rattle.std.specs.List.{slice_get};
ghost use Rattle.slots.specs.Lanes.{LongSlots, cells_in};
ghost use Rattle.captures.specs.Replays.{held_in, held_below};

use crate::Held;
use array::lent::LentSlots;
use slots::{Rec, record_at};
use std::marker::Model;

// Records in their order, at most two of each cell. Clauses see the list of them.
#[derive(Debug, Drop)]
pub(crate) struct Records {
    list: [Held; 162],
    count: usize,
}

impl Model for Records {
    ghost use Rattle.std.specs.Prelude.{List, take, length, ◌≤◌, ◌≡◌};
    ghost use Rattle.captures.specs.declared.Held.{Held};

    ghost Value = { List Held };

    ghost view = { λ r. take r.count r.list };

    ghost invariant = { λ r. (r.count ≤ 162) × (length r.list ≡ 162) };
}

impl Records {
    pub(crate) fn new() -> Records
        ensures { result ≡ [] }
    {
        let none = Held {
            cell: 0,
            slot: 0,
            word: 0,
            aim: 0,
        };
        Records {
            list: [none; 162],
            count: 0,
        }
    }

    pub(crate) fn len(&self) -> usize
        ensures { result ≡ length self.now }
    {
        self.count
    }

    // Record k, where there are as many.
    pub(crate) fn get(&self, k: usize) -> Option<Held>
        ensures { result ≡ slice_get self.now k }
    {
        if self.count <= k {
            return None;
        }
        Some(self.list[k])
    }

    fn clear(&mut self)
        ensures { self.new ≡ [] }
    {
        self.count = 0;
    }

    fn push(&mut self, held: Held)
        requires { length self.old < 162 }
        ensures { self.new ≡ self.old ++ held ∷ [] }
    {
        self.list[self.count] = held;
        self.count += 1;
    }
}

// Puts the record of a slot behind the others, where there is one.
fn with_slot(records: &mut Records, cell: usize, slot: usize, rec: Rec)
    requires { length records.old < 162 }
    ensures { records.new ≡ records.old ++ held_in cell slot rec }
{
    if rec.mark != 0 {
        records.push(Held {
            cell,
            slot,
            word: rec.word,
            aim: u32::from(rec.aim),
        });
    }
}

// And those of a cell.
fn with_cell(records: &mut Records, cell: usize, front: Rec, spare: Rec)
    requires { length records.old ≤ 160 }
    ensures { records.new ≡ records.old ++ (held_in cell 0 front ++ held_in cell 1 spare) }
{
    with_slot(records, cell, 0, front);
    with_slot(records, cell, 1, spare);
}

// Puts the records of a board's cells in place of others. Six slices are read at one place, and its number is put down, so it is counted.
pub(crate) fn list_records(front: &LentSlots, spare: &LentSlots, records: &mut Records)
    requires few { length front.now.words.now ≤ 81 }
    requires long { LongSlots (length front.now.words.now) front.now spare.now }
    ensures { records.new ≡ held_below (cells_in front.now spare.now) (length front.now.words.now) }
{
    records.clear();
    for i in 0..front.words.len() {
        with_cell(records, i, record_at(front, i), record_at(spare, i));
    }
}
