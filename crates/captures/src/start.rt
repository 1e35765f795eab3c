// The starting table of a replay, and the records of the board after so many moves from there.
ghost use Rattle.std.specs.Prelude.{◌≡◌, ◌≤◌, length, take};
ghost use Rattle.array.specs.Cells.{cells};
ghost use Rattle.captures.specs.Startable.{Startable};

use crate::state::{Records, list_records};
use array::lent::{LentLanes, LentSlots};
use lists::Trip;
use records::run_cut;

// A starting table that concentrate takes, with its side, 1 to 3, and how many cells the board has: its lanes stand at the front of arrays
// with room for the 81 cells of side 3.
#[derive(Clone, Copy, Debug, PartialEq, Eq)]
pub(crate) struct Start {
    pub(crate) side: usize,
    pub(crate) n: usize,
    words: [u32; 81],
    marks: [u8; 81],
    aims: [u16; 81],
    ghost size: { n ≡ cells side },
    ghost startable: { Startable side (take n words) (take n marks) (take n aims) },
}

// A lane at the front of an array.
fn in_front<T: Copy>(lane: &[T], none: T) -> [T; 81]
    requires { length lane.now ≤ 81 }
    ensures { take (length lane.now) result ≡ lane.now }
{
    let mut array = [none; 81];
    array[..lane.len()].copy_from_slice(lane);
    array
}

impl Start {
    ghost use Rattle.lists.specs.Lists.{total_moves};
    ghost use Rattle.captures.specs.Inside.{Loaded, records_from};

    pub(crate) fn load(side: usize, words: &[u32], marks: &[u8], aims: &[u16]) -> Start
        requires { Startable side words.now marks.now aims.now }
        ensures { Loaded side words.now marks.now aims.now result }
    {
        Start {
            side,
            n: words.len(),
            words: in_front(words, 0),
            marks: in_front(marks, 0),
            aims: in_front(aims, 0),
        }
    }

    // Puts the records after so many moves in place of others. Every state is made from the start, by the run that is proved: there are at most
    // 16 moves.
    pub(crate) fn records_after(&self, made: usize, records: &mut Records)
        requires { made ≤ total_moves self.now.side }
        ensures { records.new ≡ records_from self.now made }
    {
        let n = self.n;
        let mut words = self.words;
        let mut marks = self.marks;
        let mut aims = self.aims;
        let mut spare_words = [0u32; 81];
        let mut spare_marks = [0u8; 81];
        let mut spare_aims = [0u16; 81];
        let mut front = LentSlots {
            words: &mut words[..n],
            marks: &mut marks[..n],
            aims: &mut aims[..n],
        };
        let mut spare = LentSlots {
            words: &mut spare_words[..n],
            marks: &mut spare_marks[..n],
            aims: &mut spare_aims[..n],
        };
        let mut lanes = LentLanes {
            front: &mut front,
            spare: &mut spare,
        };
        run_cut(Trip::Concentrate, self.side, made, &mut lanes).unwrap();
        list_records(&front, &spare, records);
    }
}
