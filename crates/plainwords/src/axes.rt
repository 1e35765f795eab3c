// A shift along an axis: which position each position of a line takes its word from, and which lines the axis has.
ghost use Rattle.std.specs.Prelude.{◌≡◌, ◌<◌, ◌≤◌, length};
ghost use Rattle.laws.specs.Tables.{entries};
ghost use Rattle.lanes.specs.Machine.{load, unload};
ghost use Rattle.lanes.specs.Inside.{FitsBoard};
ghost use Rattle.shifts.specs.Results.{came_from, shifted};
ghost use Rattle.plainwords.specs.Inside.{stride_along, blocks_along, source_of, entry_for};

use crate::tables::Lines;
use shiftlists::{Axis, Distance, Edge, modulo};
use std::array::from_fn;

// A shift of a board's words by a distance within its side.
#[derive(Clone, Copy, Debug, PartialEq, Eq)]
pub(crate) struct NearShift {
    pub side: usize,
    pub edge: Edge,
    pub k: Distance,
    ghost least: { 1 ≤ side },
    ghost most: { side ≤ 8 },
    ghost forth: { k.forth < side },
    ghost back: { k.back < side },
}

impl NearShift {
    // The position that position p takes its word from with zero fill: over the edge there is none.
    fn came_straight(self, p: usize) -> Option<usize>
        requires { p < 8 }
        ensures { result ≡ source_of (came_from Edge.ZeroFill self.side self.k p) }
    {
        let q = (p + self.k.back).checked_sub(self.k.forth)?;
        (q < self.side).then_some(q)
    }

    // The same with either edge.
    fn came_from(self, p: usize) -> Option<usize>
        requires { p < 8 }
        ensures { result ≡ source_of (came_from self.edge self.side self.k p) }
    {
        match self.edge {
            Edge::ZeroFill => self.came_straight(p),
            Edge::Circular => Some((p + (self.side - modulo(self.side, self.k))) % self.side),
        }
    }

    // The same for all positions, worked out once: a table in which 8 stands for none.
    // Options in it make a circular shift of mesh rows up to a quarter slower at side 8.
    fn sources(self) -> [usize; 8]
        ensures { result ≡ entries (λ p. entry_for (came_from self.edge self.side self.k p)) 0 8 }
    {
        from_fn(|p| self.came_from(p).unwrap_or(8))
    }

    // Every word moves along its line, in place.
    pub(crate) fn along(self, axis: Axis, words: &mut [u32])
        requires { FitsBoard self.side (length words.old) }
        ensures { words.new ≡ unload self.side (shifted axis (came_from self.edge self.side self.k) (load self.side words.old)) }
    {
        let from = self.sources();
        let lines = Lines {
            side: self.side,
            stride: stride_along(self.side, axis),
            from: &from,
        };
        lines.shift_blocks(blocks_along(self.side, axis), words);
    }
}

// How far apart the cells of a line are.
fn stride_along(side: usize, axis: Axis) -> usize
    requires { side ≤ 8 }
    ensures { result ≡ stride_along side axis }
{
    match axis {
        Axis::MeshRow => 1,
        Axis::MeshColumn => side,
        Axis::GroupRow => side * side,
        Axis::GroupColumn => side * (side * side),
    }
}

// How many blocks of lines that lie side by side.
fn blocks_along(side: usize, axis: Axis) -> usize
    requires { side ≤ 8 }
    ensures { result ≡ blocks_along side axis }
{
    match axis {
        Axis::MeshRow => side * (side * side),
        Axis::MeshColumn => side * side,
        Axis::GroupRow => side,
        Axis::GroupColumn => 1,
    }
}
