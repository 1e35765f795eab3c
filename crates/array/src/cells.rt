// The cells of a board.
ghost use Rattle.std.specs.Prelude.{◌≡◌, ◌&&◌, ◌<◌, eqb};
ghost use Rattle.array.specs.Cells.{is_side, is_cell, is_board, cells as cells_of};

pub fn is_side(side: usize) -> bool
    ensures { result ≡ is_side side }
{
    1 <= side && side <= 8
}

// A board has n cells.
pub fn is_cells(side: usize, n: usize) -> bool
    ensures { result ≡ eqb n (cells_of side) }
{
    side.checked_pow(4) == Some(n)
}

pub fn is_cell(side: usize, cell: usize) -> bool
    ensures { result ≡ is_cell side cell }
{
    is_side(side) && cell < side.pow(4)
}

// A lane of n entries is one of a board.
pub fn is_board(side: usize, n: usize) -> bool
    ensures { result ≡ is_board side n }
{
    is_side(side) && is_cells(side, n)
}
