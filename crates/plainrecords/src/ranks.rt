// Rank in one pass: each cell takes the number of marked cells before it.
ghost use Rattle.std.specs.Prelude.{◌≡◌, length};
ghost use Rattle.laws.specs.Lent.{new};
ghost use Rattle.laws.specs.Tables.{entries};
ghost use Rattle.lists.specs.Lists.{prefix_sum_runs};
ghost use Rattle.answers.specs.Answers.{verdict, answer_of, accepted_by, without_logs};
ghost use Rattle.ranking.specs.Ranks.{aim_in};
ghost use Rattle.ranking.specs.Entries.{rank_cases};
ghost use Rattle.plainrecords.specs.Inside.{BoardMarks};

use crate::counting::moves_of;
use answers::{Moves, Refusal, check_lane, check_side};
use marks::check_marks;

// A marked cell's aim is the number of marked cells before it. No branch hangs on the mark.
pub(crate) fn write_ranks(marks: &[u8], aims: &mut [u16])
    requires board_marks { BoardMarks marks.now }
    requires aims_len { length aims.old ≡ length marks.now }
    ensures { new aims ≡ entries (aim_in marks.now) 0 (length marks.now) }
{
    let mut rank: usize = 0;
    for (i, &mark) in marks.iter().enumerate() {
        aims[i] = if mark == 1 { rank as u16 } else { 0 };
        rank += usize::from(mark);
    }
}

// The moves of rank, or why it refuses.
pub(crate) fn judge_rank(side: usize, marks: &[u8], aims: usize) -> Result<Moves, Refusal>
    ensures { answer_of result ≡ verdict (without_logs (rank_cases side marks.now aims 0)) (accepted_by (prefix_sum_runs side)) }
{
    check_side(side)?;
    check_lane(side, marks.len())?;
    check_lane(side, aims)?;
    check_marks(marks)?;
    Ok(moves_of(side))
}
