// Concentrate in place: the words of the marked cells go to the front, and marks and aims follow from their number.
ghost use Rattle.std.specs.Prelude.{◌≡◌, ◌≤◌, EachIndex, length, slice_index};
ghost use Rattle.array.specs.Lent.{SameSlots};
ghost use Rattle.lists.specs.declared.Trip.TheVariants.{Concentrate};
ghost use Rattle.plainrecords.specs.Inside.{BoardMarks, TripSlots, Gathered, up_to, Arranged};

use array::lent::LentSlots;

// Every word is stored at the rank of its cell, so that no branch hangs on the mark: the word of an unmarked cell is overwritten by the next,
// or lies behind the last. A rank is at most its cell, so no word is lost before it is read.
fn gather(marks: &[u8], words: &mut [u32]) -> usize
    requires board_marks { BoardMarks marks.now }
    requires words_len { length words.old ≡ length marks.now }
    ensures { Gathered marks.now words.old words.new result }
{
    let mut rank: usize = 0;
    for (i, &mark) in marks.iter().enumerate() {
        words[rank] = words[i];
        rank += usize::from(mark);
    }
    rank
}

// Every cell is its own aim.
fn number_all(aims: &mut [u16])
    requires { length aims.old ≤ 4096 }
    ensures { EachIndex aims.new (λ i. slice_index aims.new i ≡ i) }
{
    for (i, aim) in aims.iter_mut().enumerate() {
        *aim = i as u16;
    }
}

// The first cells are marked, and no others.
fn mark_first(count: usize, marks: &mut [u8])
    requires { count ≤ length marks.old }
    ensures { marks.new ≡ up_to count (λ i. 1) (length marks.old) }
{
    marks[..count].fill(1);
    marks[count..].fill(0);
}

// The first cells are their own aims, and all others hold 0.
fn number_first(count: usize, aims: &mut [u16])
    requires count_in_bounds { count ≤ length aims.old }
    requires aims_len_bound { length aims.old ≤ 4096 }
    ensures { aims.new ≡ up_to count (λ i. i) (length aims.old) }
{
    number_all(&mut aims[..count]);
    aims[count..].fill(0);
}

// Cell j becomes the record of rank j.
pub(crate) fn pack(slots: &mut LentSlots)
    requires { TripSlots Concentrate slots.old }
    ensures same { SameSlots slots.old slots.new }
    ensures arranged { Arranged Concentrate slots.old slots.new }
{
    let marks = &mut *slots.marks;
    let count = gather(marks, slots.words);
    slots.words[count..].fill(0);
    mark_first(count, marks);
    number_first(count, slots.aims);
}
