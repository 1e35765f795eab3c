// The moves that the array can make, and their codes in a log.
ghost use Rattle.std.specs.Prelude.{◌≡◌};
ghost use Rattle.array.specs.Moves.{code_of, Decoded, logged_of, opposite as opposite_of, is_along_rows, is_forth, stride_of, line_gap};

#[derive(Clone, Copy, Debug, PartialEq, Eq)]
pub enum Way {
    Right,
    Left,
    Up,
    Down,
}

impl Way {
    // Its lines are the rows of a group, and not the columns.
    pub fn is_along_rows(self) -> bool
        ensures { result ≡ is_along_rows self }
    {
        matches!(self, Way::Right | Way::Left)
    }

    // It goes to greater columns or rows.
    pub fn is_forth(self) -> bool
        ensures { result ≡ is_forth self }
    {
        matches!(self, Way::Right | Way::Down)
    }

    // From one place of a line to the next.
    pub fn stride(self, side: usize) -> usize
        ensures { result ≡ stride_of side self }
    {
        if self.is_along_rows() { 1 } else { side }
    }

    // From one line of a group to the next.
    pub fn line_gap(self, side: usize) -> usize
        ensures { result ≡ line_gap side self }
    {
        if self.is_along_rows() { side } else { 1 }
    }
}

#[derive(Clone, Copy, Debug, PartialEq, Eq)]
pub enum Move {
    Swap,
    Electronic(Way),
}

pub const SWAP: Move = Move::Swap;

pub const RIGHT: Move = Move::Electronic(Way::Right);

pub const LEFT: Move = Move::Electronic(Way::Left);

pub const UP: Move = Move::Electronic(Way::Up);

pub const DOWN: Move = Move::Electronic(Way::Down);

// A line of a log: the move, and how many records changed cell in it.
#[derive(Clone, Copy, Debug, PartialEq, Eq)]
pub struct LogLine {
    pub step: Move,
    pub moved: u16,
}

impl From<Move> for u8 {
    ghost from_gives = { λ step r. r ≡ code_of step };

    fn from(step: Move) -> u8 {
        match step {
            Move::Swap => 0,
            Move::Electronic(Way::Right) => 1,
            Move::Electronic(Way::Left) => 2,
            Move::Electronic(Way::Up) => 3,
            Move::Electronic(Way::Down) => 4,
        }
    }
}

// A code that no move has.
#[derive(Clone, Copy, Debug, PartialEq, Eq)]
pub struct UnknownCode(pub u8);

impl TryFrom<u8> for Move {
    type Error = UnknownCode;

    ghost try_from_gives = { Decoded };

    fn try_from(code: u8) -> Result<Move, UnknownCode> {
        match code {
            0 => Ok(SWAP),
            1 => Ok(RIGHT),
            2 => Ok(LEFT),
            3 => Ok(UP),
            4 => Ok(DOWN),
            _ => Err(UnknownCode(code)),
        }
    }
}

// The log line of a code and a moved count.
pub fn log_line(code: u8, moved: u16) -> Option<LogLine>
    ensures { result ≡ logged_of code moved }
{
    let step = Move::try_from(code).ok()?;
    Some(LogLine { step, moved })
}

pub fn opposite(way: Way) -> Way
    ensures { result ≡ opposite_of way }
{
    match way {
        Way::Right => Way::Left,
        Way::Left => Way::Right,
        Way::Up => Way::Down,
        Way::Down => Way::Up,
    }
}
