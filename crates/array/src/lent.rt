// The lanes of records that a function is lent: those of the front slots of all cells, and those of the spare ones.
ghost use Rattle.std.specs.Prelude.{◌≡◌};
ghost use Rattle.array.specs.Lent.{slots_fit, lanes_fit};

use crate::cells::is_board;

// What one slot of every cell holds: a word, a mark and an aim.
#[derive(Drop)]
pub struct LentSlots<'a> {
    pub words: &'a mut [u32],
    pub marks: &'a mut [u8],
    pub aims: &'a mut [u16],
}

// All six lanes: those of the front slots, and those of the spare ones. They are held by reference, since a struct that holds the other
// structs themselves would not tell what the lanes hold once it is given up.
#[derive(Drop)]
pub struct LentLanes<'p, 'q, 'f, 's> {
    pub front: &'p mut LentSlots<'f>,
    pub spare: &'q mut LentSlots<'s>,
}

impl<'a> LentSlots<'a> {
    // They are as long as those of a board of this side.
    pub fn fit(&self, side: usize) -> bool
        ensures { result ≡ slots_fit side self.now }
    {
        is_board(side, self.words.len())
            && (is_board(side, self.marks.len()) && is_board(side, self.aims.len()))
    }
}

impl<'p, 'q, 'f, 's> LentLanes<'p, 'q, 'f, 's> {
    // All six are.
    pub fn fit(&self, side: usize) -> bool
        ensures { result ≡ lanes_fit side self.now }
    {
        self.front.fit(side) && self.spare.fit(side)
    }
}
