// Lanes before the first move: an unmarked cell holds 0, and so does every cell of a spare lane.
#![tactic(auto)]

ghost use Rattle.std.specs.Prelude.{◌≡◌};
ghost use Rattle.array.specs.Lent.{SameSlots};
ghost use Rattle.clearing.specs.Cleared.{emptied, kept, kept_or, zeros};

use array::lent::LentSlots;

// Unmarked cells become empty. A lane that has not as many marks stays as it is. Every cell is written, so that no branch hangs on the mark:
// on a crowded frame it would often be guessed wrong.
pub fn keep<T: Copy>(marks: &[u8], lane: &mut [T], empty: T)
    ensures { lane.new ≡ kept_or empty marks.now lane.old }
{
    if marks.len() != lane.len() {
        return;
    }
    for (i, own) in lane.iter_mut().enumerate() {
        *own = if marks[i] == 1 { *own } else { empty };
    }
}

// The unmarked cells of a slot hold 0, in words and aims each. A lane that has not as many marks stays as it is.
pub fn keep_marked(slots: &mut LentSlots)
    ensures same { SameSlots slots.old slots.new }
    ensures words { slots.new.words.now ≡ kept slots.old.marks.now slots.old.words.now }
    ensures marks { slots.new.marks.now ≡ slots.old.marks.now }
    ensures aims { slots.new.aims.now ≡ kept slots.old.marks.now slots.old.aims.now }
{
    let marks = &mut *slots.marks;
    keep(marks, slots.words, 0);
    keep(marks, slots.aims, 0);
}

// Every cell of a lane becomes empty.
pub fn clear<T: Copy>(lane: &mut [T], empty: T)
    ensures { lane.new ≡ emptied empty lane.old }
{
    for own in lane.iter_mut() {
        *own = empty;
    }
}

// Every cell of a slot's lanes holds 0.
pub fn empty(slots: &mut LentSlots)
    ensures same { SameSlots slots.old slots.new }
    ensures words { slots.new.words.now ≡ zeros slots.old.words.now }
    ensures marks { slots.new.marks.now ≡ zeros slots.old.marks.now }
    ensures aims { slots.new.aims.now ≡ zeros slots.old.aims.now }
{
    clear(slots.words, 0);
    clear(slots.marks, 0);
    clear(slots.aims, 0);
}
