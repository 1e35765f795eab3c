// Distribute in place: every record goes from the front to the cell that its aim names, the last one first.
ghost use Rattle.std.specs.Prelude.{◌≡◌};
ghost use Rattle.array.specs.Lent.{SameSlots};
ghost use Rattle.lists.specs.declared.Trip.TheVariants.{Distribute};
ghost use Rattle.plainrecords.specs.Inside.{TripSlots, Ready, Scattered, Arranged};

use array::lent::LentSlots;
use marks::count_marks;

// Where a record stays, so do all before it, since aims rise.
// No record is overwritten before it is taken: its aim is no cell before its own, and the records before it are taken later.
// The lanes come one by one: where they come as one, each is looked up again at every store, which takes distribute a sixth longer.
fn scatter(count: usize, words: &mut [u32], marks: &mut [u8], aims: &mut [u16])
    requires { Ready count words.old marks.old aims.old }
    ensures { Scattered count words marks aims }
{
    for r in (0..count).rev() {
        let word = words[r];
        let aim = aims[r];
        let to = usize::from(aim);
        if to == r {
            break;
        }
        words[r] = 0;
        marks[r] = 0;
        aims[r] = 0;
        words[to] = word;
        marks[to] = 1;
        aims[to] = aim;
    }
}

// Each cell that is aimed at becomes the record that aims at it. Behind the records the marks are 0 already.
pub(crate) fn spread(slots: &mut LentSlots)
    requires { TripSlots Distribute slots.old }
    ensures same { SameSlots slots.old slots.new }
    ensures arranged { Arranged Distribute slots.old slots.new }
{
    let marks = &mut *slots.marks;
    let count = count_marks(marks);
    slots.words[count..].fill(0);
    slots.aims[count..].fill(0);
    scatter(count, slots.words, marks, slots.aims);
}
