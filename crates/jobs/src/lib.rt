// All that the job program does with its input, on lent slices.
#![tactic(auto)]

ghost use Rattle.std.specs.Prelude.{◌≡◌, true, ℕ, ◌<◌, ◌≤◌, length, get_or};
ghost use Rattle.array.specs.Cells.{is_side, cells};
ghost use Rattle.array.specs.Lent.{SameSlots};
ghost use Rattle.printing.specs.Buffers.{OutFilled};
ghost use Rattle.jobtext.specs.Verdicts.{text_verdict};
ghost use Rattle.jobs.specs.Outputs.{output_of};
ghost use Rattle.jobs.specs.Filled.{printed_of};
ghost use Rattle.jobs.specs.Inside.{JobBoard, Settled, JobLanes, lanes_text};

use answertext::{answer, refusal};
use array::lent::{LentLanes, LentSlots};
use jobtext::{Job, read};
use lists::{Trip, total_moves};
use ranking::rank;

// The answer to a job, of what concentrate left in the logs and in the words.
fn print(
    out: &mut [u8; 196608],
    job: Job,
    codes: &[u8; 51],
    moved: &[u16; 51],
    words: &[u32],
) -> usize
    requires side_value { is_side job.side ≡ true }
    requires marked_bound { job.marked ≤ 4096 }
    requires words_long { job.marked ≤ length words.now }
    ensures { OutFilled out.old (printed_of job.side job.marked codes.now moved.now words.now) result out.new }
{
    let moves = total_moves(job.side);
    answer(out, &codes[..moves], &moved[..moves], &words[..job.marked])
}

// Every marked cell's record goes to the cell of its rank.
fn settle(
    side: usize,
    front: &mut LentSlots,
    spare: &mut LentSlots,
    codes: &mut [u8; 51],
    moved: &mut [u16; 51],
)
    requires { JobBoard side front.old spare.old }
    ensures same { SameSlots front.old front.new }
    ensures settled { Settled side front.old.words.now front.old.marks.now front.new.words.now codes.new moved.new }
{
    let marks = &mut *front.marks;
    rank(side, marks, front.aims, codes).unwrap();
    let mut lanes = LentLanes { front, spare };
    records::run(Trip::Concentrate, side, &mut lanes, codes, moved).unwrap();
}

// The same with aims and spare lanes of its own.
fn settle_lanes(
    side: usize,
    words: &mut [u32],
    marks: &mut [u8],
    codes: &mut [u8; 51],
    moved: &mut [u16; 51],
)
    requires side_value { is_side side ≡ true }
    requires lanes_long { (length words.old ≡ cells side) × (length marks.old ≡ cells side) }
    requires good_marks { (k : ℕ) → k < length marks.old → get_or marks.old k 0 < 2 }
    ensures { Settled side words.old marks.old words.new codes.new moved.new }
{
    let n = words.len();
    let mut aims = [0; 4096];
    let mut spare_words = [0; 4096];
    let mut spare_marks = [0; 4096];
    let mut spare_aims = [0; 4096];
    let mut front = LentSlots {
        words,
        marks,
        aims: &mut aims[..n],
    };
    let mut spare = LentSlots {
        words: &mut spare_words[..n],
        marks: &mut spare_marks[..n],
        aims: &mut spare_aims[..n],
    };
    settle(side, &mut front, &mut spare, codes, moved);
}

// Ranks and concentrates the lanes of a job, and puts its answer.
fn solve(out: &mut [u8; 196608], job: Job, words: &mut [u32], marks: &mut [u8]) -> usize
    requires { JobLanes job.side job.marked words.old marks.old }
    ensures { OutFilled out.old (lanes_text job.side job.marked words.old marks.old) result out.new }
{
    let mut codes = [0; 51];
    let mut moved = [0; 51];
    settle_lanes(job.side, words, marks, &mut codes, &mut moved);
    print(out, job, &codes, &moved, words)
}

// All that the program does with its input.
pub fn run(text: &[u8], out: &mut [u8; 196608]) -> usize
    ensures { OutFilled out.old (output_of (text_verdict text.now)) result out.new }
{
    let mut words = [0; 4096];
    let mut marks = [0; 4096];
    let outcome = read(text, &mut words, &mut marks);
    let Ok(job) = outcome else {
        let refused = outcome.unwrap_err();
        return refusal(out, refused.number(), refused.place());
    };
    let cells = job.side.pow(4);
    solve(out, job, &mut words[..cells], &mut marks[..cells])
}
