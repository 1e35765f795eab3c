// Lines of words shifted in place: s cells, each a stride behind the one before. One way for all four axes, over the stride.
ghost use Rattle.std.specs.Prelude.{◌≡◌, ◌+◌, ◌*◌, ◌/◌, ◌<◌, ◌≤◌, length, replicate, slice_index};
ghost use Rattle.lanes.specs.Inside.{PlacesLaid};
ghost use Rattle.plainwords.specs.Names.{Names};
ghost use Rattle.plainwords.specs.Inside.{WholeLine, WholeRows, WholeBlock, WholeBlocks, LineTaken, Copied, RowsLaid, named, BlocksShifted, ShiftedBy, BoardShiftedBy};

use crate::tables::Lines;

impl Lines<'_> {
    // The words of a line, laid over zeros: what stands for no position is past the last.
    fn take_line(self, first: usize, words: &[u32], line: &mut [u32; 9])
        requires whole_line { WholeLine self first (length words.now) }
        requires line_value { line.old ≡ replicate 9 0 }
        ensures { LineTaken self.entry.side self.entry.stride first words.now line.new }
    {
        for (p, word) in line[..self.side].iter_mut().enumerate() {
            *word = words[first + p * self.stride];
        }
    }

    // Each position takes the word of the position that the table names for it.
    fn lay_line(self, first: usize, line: &[u32; 9], words: &mut [u32])
        requires { WholeLine self first (length words.old) }
        ensures { PlacesLaid first self.entry.stride self.entry.side (λ p. slice_index line.now (slice_index self.entry.from.now p)) words.old words.new }
    {
        let from = self.from;
        for (p, &q) in from[..self.side].iter().enumerate() {
            words[first + p * self.stride] = line[q];
        }
    }

    // A line, o cells behind the start of its block.
    fn shift_line(self, start: usize, o: usize, words: &mut [u32])
        requires whole_block { WholeBlock self start (length words.old) }
        requires o_lt_stride { o < self.stride }
        ensures { ShiftedBy self.entry start o (o + 1) words.old words.new }
    {
        let mut line = [0u32; 9];
        self.take_line(start + o, &words[..], &mut line);
        self.lay_line(start + o, &line, words);
    }

    // The words of eight lines that lie side by side, position after position.
    fn take_rows(self, first: usize, words: &[u32], rows: &mut [u32; 72])
        requires { WholeRows self first (length words.now) }
        ensures { RowsLaid 0 8 self.entry.side (λ p j. slice_index words.now (first + p * self.entry.stride + j)) rows.old rows.new }
    {
        for p in 0..self.side {
            copy_eight(words, first + p * self.stride, &mut rows[..], p * 8);
        }
    }

    // Each position takes the words of the position that the table names for it.
    fn lay_rows(self, first: usize, rows: &[u32; 72], words: &mut [u32])
        requires { WholeRows self first (length words.old) }
        ensures { RowsLaid first self.entry.stride self.entry.side (λ p j. slice_index rows.now (slice_index self.entry.from.now p * 8 + j)) words.old words.new }
    {
        let from = self.from;
        for (p, &q) in from[..self.side].iter().enumerate() {
            copy_eight(&rows[..], q * 8, words, first + p * self.stride);
        }
    }

    // Eight lines at a time, the first o cells behind the start of its block: a processor takes their words together.
    fn shift_eight(self, start: usize, o: usize, words: &mut [u32])
        requires whole_block { WholeBlock self start (length words.old) }
        requires o_bound { o + 8 ≤ self.stride }
        ensures { ShiftedBy self.entry start o (o + 8) words.old words.new }
    {
        let mut rows = [0u32; 72];
        self.take_rows(start + o, &words[..], &mut rows);
        self.lay_rows(start + o, &rows, words);
    }

    // The lines of a block, as far as they go in eights.
    fn shift_eights(self, start: usize, words: &mut [u32])
        requires { WholeBlock self start (length words.old) }
        ensures { ShiftedBy self.entry start 0 (self.entry.stride / 8 * 8) words.old words.new }
    {
        for e in 0..self.stride / 8 {
            self.shift_eight(start, e * 8, words);
        }
    }

    // The lines of a block, in eights, and then those that are left.
    fn shift_lines(self, start: usize, words: &mut [u32])
        requires { WholeBlock self start (length words.old) }
        ensures { ShiftedBy self.entry start 0 self.entry.stride words.old words.new }
    {
        self.shift_eights(start, words);
        for o in self.stride / 8 * 8..self.stride {
            self.shift_line(start, o, words);
        }
    }

    // Block after block.
    fn shift_each(self, blocks: usize, words: &mut [u32])
        requires { WholeBlocks self blocks (length words.old) }
        ensures { BoardShiftedBy self.entry blocks words.old words.new }
    {
        let size = self.side * self.stride;
        for block in 0..blocks {
            self.shift_lines(block * size, words);
        }
    }

    // The blocks of a board. Rows of eight words are told apart here and not at each block, where that takes a fifth more time.
    pub(crate) fn shift_blocks(self, blocks: usize, words: &mut [u32])
        requires { WholeBlocks self blocks (length words.old) }
        ensures { BoardShiftedBy self.entry blocks words.old words.new }
    {
        if self.side == 8 && self.stride == 1 {
            shift_rows(self.from, blocks, words);
        } else {
            self.shift_each(blocks, words);
        }
    }
}

// Eight words of one list, laid into another. `copy_from_slice` makes a shift by columns or over the groups up to a third slower.
fn copy_eight(from: &[u32], a: usize, to: &mut [u32], b: usize)
    requires a_in_bounds { a + 8 ≤ length from.now }
    requires b_in_bounds { b + 8 ≤ length to.old }
    ensures { Copied a b 8 from.now to.old to.new }
{
    for j in 0..8 {
        to[b + j] = from[a + j];
    }
}

// Rows of eight words: with the numbers known, a compiler takes a row's words together, and by themselves they have all registers.
#[inline(never)]
fn shift_rows(from: &[usize; 8], rows: usize, words: &mut [u32])
    requires names { Names from.now }
    requires whole { length words.old ≡ rows * 8 }
    ensures { BlocksShifted 8 1 (named 8 from.now) rows words.old words.new }
{
    let row = Lines {
        side: 8,
        stride: 1,
        from,
    };
    for i in 0..rows {
        row.shift_line(i * 8, 0, words);
    }
}
