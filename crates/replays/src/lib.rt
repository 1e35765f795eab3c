// All that the replay program does with its two texts, on lent slices.
#![tactic(auto)]

ghost use Rattle.std.specs.Prelude.{◌≡◌, [], ◌∷◌, length};
ghost use Rattle.printing.specs.Printed.{decimal, line};
ghost use Rattle.printing.specs.Buffers.{Written, OutFilled};
ghost use Rattle.printing.specs.Printers.{Put};
ghost use Rattle.jobtext.specs.Verdicts.{text_verdict};
ghost use Rattle.ranking.specs.Ranks.{ranks};
ghost use Rattle.ranking.specs.Inside.{GoodMarks};
ghost use Rattle.captures.specs.Replays.{replay_of};
ghost use Rattle.replays.specs.Outputs.{replayed_line, replay_line, replay_from, replay_text};

use answers::Refusal;
use answertext::refusal;
use captures::{Replayed, replay};
use jobtext::read;
use printing::Printer;
use ranking::rank;

// A line of a word and a number.
fn put_numbered(printer: &mut Printer, word: &[u8], number: usize)
    ensures { Put (line (word.now ∷ decimal number ∷ [])) printer.old printer.new }
{
    printer.put(word);
    printer.put_byte(b'\t');
    printer.put_field(number, b'\n');
}

// The line of a replay that is not refused.
fn answer(out: &mut [u8], replayed: Replayed) -> usize
    ensures { Written out.old 0 (replayed_line replayed) result out.new }
{
    let mut printer = Printer::new(out);
    match replayed {
        Replayed::Agrees => printer.put(b"agrees\n"),
        Replayed::Differs(number) => put_numbered(&mut printer, b"differs", number),
        Replayed::Early(number) => put_numbered(&mut printer, b"early", number),
    }
    printer.at
}

// The line of a replay.
fn put_replay(out: &mut [u8; 64], outcome: Result<Replayed, Refusal>) -> usize
    ensures { OutFilled out.old (replay_line outcome) result out.new }
{
    match outcome {
        Ok(replayed) => answer(out, replayed),
        Err(refused) => refusal(out, refused.number(), refused.place()),
    }
}

// Ranks the marks of a board, and replays a capture from its lanes with the ranks as aims.
fn replay_ranked(
    side: usize,
    words: &[u32],
    marks: &[u8],
    aims: &mut [u16],
    capture: &[u8],
) -> Result<Replayed, Refusal>
    requires good_marks { GoodMarks side marks.now }
    requires marks_len { length marks.now ≡ length aims.old }
    ensures { result ≡ replay_of side words.now marks.now (ranks side marks.now) capture.now }
{
    let mut codes = [0; 51];
    rank(side, marks, aims, &mut codes)?;
    replay(side, words, marks, aims, capture)
}

// The same with aims of its own.
fn replay_lanes(
    side: usize,
    words: &[u32],
    marks: &[u8],
    capture: &[u8],
) -> Result<Replayed, Refusal>
    requires { GoodMarks side marks.now }
    ensures { result ≡ replay_of side words.now marks.now (ranks side marks.now) capture.now }
{
    let n = marks.len();
    let mut aims = [0; 4096];
    replay_ranked(side, words, marks, &mut aims[..n], capture)
}

// Reads a job, and replays a capture from its lanes: a text that is no job is refused.
fn replay_job(job: &[u8], capture: &[u8]) -> Result<Replayed, Refusal>
    ensures { result ≡ replay_from (text_verdict job.now) capture.now }
{
    let mut words = [0; 4096];
    let mut marks = [0; 4096];
    let side = read(job, &mut words, &mut marks)?.side;
    let cells = side.pow(4);
    replay_lanes(side, &words[..cells], &marks[..cells], capture)
}

// The line that answers a job and the capture of its run.
pub fn run(job: &[u8], capture: &[u8], out: &mut [u8; 64]) -> usize
    ensures { OutFilled out.old (replay_text job.now capture.now) result out.new }
{
    put_replay(out, replay_job(job, capture))
}
