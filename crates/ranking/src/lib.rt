// Rank: a marked cell's aim becomes the number of marked cells of smaller index. The marks are summed by the prefix sum's moves.
#![tactic(auto)]

ghost use Rattle.std.specs.Prelude.{◌≡◌, ◌≤◌, length};
ghost use Rattle.laws.specs.Lent.{new};
ghost use Rattle.laws.specs.Tables.{entries};
ghost use Rattle.lists.specs.Lists.{prefix_sum_runs};
ghost use Rattle.answers.specs.Answers.{verdict, answer_of, accepted_by};
ghost use Rattle.ranking.specs.Ranks.{aim_in, ranks};
ghost use Rattle.ranking.specs.Inside.{Summed, GoodMarks};
ghost use Rattle.ranking.specs.Entries.{rank_cases, Ranked};

use answers::{Moves, Refusal, check_lane, check_log, check_side, moves_of};
use lists::prefix_sum_runs;
use marks::check_marks;
use prefix::prefix_within;
use runs::write_codes;

// The marks as words.
fn load_marks(marks: &[u8], sums: &mut [u32])
    requires { length marks.now ≡ length sums.old }
    ensures { new sums ≡ marks.now }
{
    for (i, sum) in sums.iter_mut().enumerate() {
        *sum = u32::from(marks[i]);
    }
}

// The aims, of the marks and their prefix sums. One is taken off first, so that no branch hangs on the mark.
fn set_aims(marks: &[u8], sums: &[u32], aims: &mut [u16])
    requires summed { Summed marks.now sums.now }
    requires aims_len { length aims.old ≡ length marks.now }
    ensures { new aims ≡ entries (aim_in marks.now) 0 (length marks.now) }
{
    for (i, aim) in aims.iter_mut().enumerate() {
        let rank = sums[i].saturating_sub(1) as u16;
        *aim = if marks[i] == 1 { rank } else { 0 };
    }
}

// The ranks, by way of the prefix sums of the marks. The lane of sums is cleared, so it is not to be much too long. Each room is a function of its
// own: laid into one, a call at side 2 touches the pages of the room for 4,096 words.
#[inline(never)]
fn write_within<const N: usize>(side: usize, marks: &[u8], aims: &mut [u16])
    requires good_marks { GoodMarks side marks.now }
    requires aims_len { length aims.old ≡ length marks.now }
    requires marks_len_bound { length marks.now ≤ N }
    requires few { N ≤ 4096 }
    ensures { new aims ≡ ranks side marks.now }
{
    let mut sums = [0u32; N];
    let sums = &mut sums[..marks.len()];
    load_marks(marks, sums);
    prefix_within::<N>(side, sums);
    set_aims(marks, sums, aims);
}

// On a board of side 2 at most, of side 4 at most, and of any.
fn write_ranks(side: usize, marks: &[u8], aims: &mut [u16])
    requires good_marks { GoodMarks side marks.now }
    requires aims_len { length aims.old ≡ length marks.now }
    ensures { new aims ≡ ranks side marks.now }
{
    if marks.len() <= 16 {
        write_within::<16>(side, marks, aims);
    } else if marks.len() <= 256 {
        write_within::<256>(side, marks, aims);
    } else {
        write_within::<4096>(side, marks, aims);
    }
}

// The moves of rank, or why it refuses.
fn judge_rank(side: usize, marks: &[u8], aims: usize, log: usize) -> Result<Moves, Refusal>
    ensures { answer_of result ≡ verdict (rank_cases side marks.now aims log) (accepted_by (prefix_sum_runs side)) }
{
    let runs = prefix_sum_runs(side);
    check_side(side)?;
    check_lane(side, marks.len())?;
    check_lane(side, aims)?;
    check_log(runs, log)?;
    check_marks(marks)?;
    Ok(moves_of(runs))
}

// Writes each marked cell's rank into its aim, and 0 into every other.
pub fn rank(side: usize, marks: &[u8], aims: &mut [u16], codes: &mut [u8]) -> Result<Moves, Refusal>
    ensures { Ranked side marks.now aims codes (answer_of result) }
{
    let moves = judge_rank(side, marks, aims.len(), codes.len())?;
    write_ranks(side, marks, aims);
    write_codes(prefix_sum_runs(side), codes, 0);
    Ok(moves)
}
