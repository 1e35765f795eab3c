// The eight shifts, on a lane of words.
#![tactic(auto)]

ghost use Rattle.std.specs.Prelude.{◌≡◌, cond, ◌≤◌, ◌<◌, length};
ghost use Rattle.lanes.specs.Stages.{position as position_of};
ghost use Rattle.lanes.specs.Inside.{FitsBoard, Moves};
ghost use Rattle.shifts.specs.Results.{shift_lane};
ghost use Rattle.shifts.specs.Inside.{next_spot, taken_below, mesh_shift, shift_on};

use array::cells::is_board;
use array::moves::{Way, opposite};
use lanes::{Joining, run};
use light::swap_words;
use shiftlists::{Axis, Distance, Edge, is_within, shift_runs};

// How many moves the words go forth along their lines, and how many around, the other way; and what becomes of those that leave a line.
#[derive(Clone, Copy, Debug, PartialEq, Eq)]
pub struct Shift {
    pub edge: Edge,
    pub forth: usize,
    pub around: usize,
}

// A row and a column of a group.
#[derive(Clone, Copy, Debug, PartialEq, Eq)]
pub struct Spot {
    pub row: usize,
    pub column: usize,
}

fn position(way: Way, spot: Spot) -> usize
    ensures { result ≡ position_of way spot.row spot.column }
{
    if way.is_along_rows() {
        spot.column
    } else {
        spot.row
    }
}

// The spot of the next cell; behind the last of a group comes the first of the next group.
fn next_spot(side: usize, spot: Spot) -> Spot
    requires { (spot.row < side) × (spot.column < side) }
    ensures { result ≡ next_spot side spot }
{
    if spot.column + 1 < side {
        return Spot {
            row: spot.row,
            column: spot.column + 1,
        };
    }
    if spot.row + 1 < side {
        return Spot {
            row: spot.row + 1,
            column: 0,
        };
    }
    Spot { row: 0, column: 0 }
}

// Both words are read whatever the test says, so that no branch hangs on it: with the test in the loop itself a circular shift along the rows
// of side 8 takes 22 in 100 more time.
fn pick(first: bool, x: u32, y: u32) -> u32
    ensures { result ≡ cond first x y }
{
    if first { x } else { y }
}

// A shift of the words of a board: no word goes further than a line is long.
#[derive(Clone, Copy, Debug, PartialEq, Eq)]
struct BoardShift {
    side: usize,
    shift: Shift,
    ghost least: { 1 ≤ side },
    ghost forth: { shift.forth ≤ side },
    ghost around: { shift.around ≤ side },
}

impl BoardShift {
    // The cells at a position that no word of their line came forth to take their words of the other lane.
    fn take_below(self, way: Way, words: &mut [u32], back: &[u32])
        requires { length back.now ≡ length words.old }
        ensures { words.new ≡ taken_below self.side way self.shift.forth words.old back.now }
    {
        let mut spot = Spot { row: 0, column: 0 };
        for (i, own) in words.iter_mut().enumerate() {
            *own = pick(position(way, spot) < self.shift.forth, back[i], *own);
            spot = next_spot(self.side, spot);
        }
    }

    // Inside the groups. What goes forth goes in words, what goes around in back; then each cell takes the word that came around, where one
    // did, or keeps the one that came forth.
    fn inside_groups(self, way: Way, words: &mut [u32], back: &mut [u32])
        requires { length back.old ≡ length words.old }
        ensures { Moves self.side (mesh_shift self.side way self.shift) words.old words.new }
    {
        back.copy_from_slice(&words[..]);
        run(self.side, way, Joining::Fill, 0, self.shift.forth, words);
        run(
            self.side,
            opposite(way),
            Joining::Fill,
            0,
            self.shift.around,
            back,
        );
        if self.shift.around == 0 {
            return;
        }
        match self.shift.edge {
            Edge::ZeroFill => words.copy_from_slice(&back[..]),
            Edge::Circular => self.take_below(way, words, &back[..]),
        }
    }

    // Along an axis: inside the groups, or between two swaps the same. The second lane is made here, and the ways are written out: made below,
    // it would lie on the stack twice, and with the way in a variable a circular shift along the rows of side 8 takes 40 in 100 more time.
    fn along(self, axis: Axis, words: &mut [u32])
        requires { FitsBoard self.side (length words.old) }
        ensures { Moves self.side (shift_on self.side axis self.shift) words.old words.new }
    {
        let mut lane = [0u32; 4096];
        let back = &mut lane[..words.len()];
        match axis {
            Axis::MeshRow => self.inside_groups(Way::Right, words, back),
            Axis::MeshColumn => self.inside_groups(Way::Down, words, back),
            Axis::GroupRow => {
                swap_words(self.side, words);
                self.inside_groups(Way::Right, words, back);
                swap_words(self.side, words);
            }
            Axis::GroupColumn => {
                swap_words(self.side, words);
                self.inside_groups(Way::Down, words, back);
                swap_words(self.side, words);
            }
        }
    }
}

// Every word moves by k along its row or column, of the mesh or of the groups.
pub fn shift_words(side: usize, axis: Axis, edge: Edge, k: i32, words: &mut [u32])
    ensures { words.new ≡ shift_lane side axis edge k words.old }
{
    if !is_board(side, words.len()) {
        return;
    }
    if !is_within(side, Distance::from(k)) {
        return;
    }
    let runs = shift_runs(side, axis, edge, k);
    let shift = Shift {
        edge,
        forth: runs[1].times,
        around: runs[2].times,
    };
    BoardShift { side, shift }.along(axis, words);
}
