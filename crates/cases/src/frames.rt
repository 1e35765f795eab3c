// What the lanes hold before a run. They have room for a board of side 8; a smaller board lends its first cells.
ghost use Rattle.std.specs.Prelude.{◌≤◌};

use array::cells::is_side;
use std::array::from_fn;

// The front lanes of a board.
#[derive(Clone, Copy, Debug, PartialEq, Eq)]
pub(crate) struct Frame {
    pub(crate) words: [u32; 4096],
    pub(crate) marks: [u8; 4096],
    pub(crate) aims: [u16; 4096],
}

// A side that is refused gets the lanes of side 8.
pub(crate) fn lane_cells(side: usize) -> usize
    ensures { (1 ≤ result) × (result ≤ 4096) }
{
    if is_side(side) { side.pow(4) } else { 4096 }
}

// Words that count up from the first, modulo 2^32.
pub(crate) fn counting_up(first: u32) -> [u32; 4096] {
    from_fn(|i| first.wrapping_add(i as u32))
}

pub(crate) fn marks_at(cells: &[usize]) -> [u8; 4096] {
    let mut marks = [0u8; 4096];
    for &cell in cells {
        if let Some(mark) = marks.get_mut(cell) {
            *mark = 1;
        }
    }
    marks
}

// Cell i of a frame is marked where (5 i + i div 3) mod (kind + 1) is 0.
pub(crate) fn marks_of(kind: u8) -> [u8; 4096] {
    from_fn(|i| u8::from((5 * i + i / 3) % (usize::from(kind) + 1) == 0))
}

// Records at the front of a board, aimed back at its marked cells. What is written for a cell that is not marked is overwritten by the next.
pub(crate) fn gathered(side: usize, first: u32, marked: &[u8; 4096]) -> Frame {
    let mut marks = [0u8; 4096];
    let mut aims = [0u16; 4096];
    let mut rank: usize = 0;
    for (i, &mark) in marked[..lane_cells(side)].iter().enumerate() {
        marks[rank] = mark;
        aims[rank] = i as u16;
        rank += usize::from(mark == 1);
    }
    Frame {
        words: counting_up(first),
        marks,
        aims,
    }
}
