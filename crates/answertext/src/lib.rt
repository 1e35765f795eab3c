// The text of an answer, written into a lent buffer as far as that goes.
#![tactic(auto)]

ghost use Rattle.std.specs.Prelude.{◌≡◌, ◌≤◌, length};
ghost use Rattle.printing.specs.Printed.{rows};
ghost use Rattle.printing.specs.Buffers.{Written};
ghost use Rattle.printing.specs.Printers.{Put};
ghost use Rattle.answertext.specs.Log.{lines, line_of, added_to, totals_of};
ghost use Rattle.answertext.specs.Answers.{step_text, move_line, record_line, all_line, move_row, record_row, answer_text, refused_text};

use array::moves::{LogLine, Move, Way, log_line};
use printing::Printer;
use runs::{electronic_in, swaps_in};

// What the lines of a log add up to.
#[derive(Clone, Copy, Debug, Default, PartialEq, Eq)]
pub struct Totals {
    pub electronic: usize,
    pub optical: usize,
    pub moved: usize,
}

// The kind and the way of a move, each with the tab after it.
#[tactic(auto, unfolding(crate::specs::Answers::step_text, crate::specs::Answers::kind_text, crate::specs::Answers::way_text))]
fn step_text(step: Move) -> &'static [u8]
    ensures { result.now ≡ step_text step }
{
    match step {
        Move::Swap => b"O\tswap\t",
        Move::Electronic(Way::Right) => b"E\tright\t",
        Move::Electronic(Way::Left) => b"E\tleft\t",
        Move::Electronic(Way::Up) => b"E\tup\t",
        Move::Electronic(Way::Down) => b"E\tdown\t",
    }
}

// The line of a move, by its log line.
fn put_move(printer: &mut Printer, number: usize, logged: Option<LogLine>)
    ensures { Put (move_line number logged) printer.old printer.new }
{
    let Some(line) = logged else {
        return;
    };
    printer.put_field(number, b'\t');
    printer.put(step_text(line.step));
    printer.put_field(usize::from(line.moved), b'\n');
}

fn put_record(printer: &mut Printer, cell: usize, word: u32)
    ensures { Put (record_line cell word) printer.old printer.new }
{
    printer.put_field(cell, b'\t');
    printer.put_field(word as usize, b'\n');
}

fn put_all(printer: &mut Printer, totals: Totals)
    ensures { Put (all_line totals) printer.old printer.new }
{
    printer.put(b"all\t");
    printer.put_field(totals.electronic, b'\t');
    printer.put_field(totals.optical, b'\t');
    printer.put_field(totals.moved, b'\n');
}

// Totals with one line more; a total takes 64 bits.
fn added(totals: Totals, logged: Option<LogLine>) -> Totals
    ensures { result ≡ added_to totals logged }
{
    let Some(line) = logged else {
        return totals;
    };
    Totals {
        electronic: totals.electronic.wrapping_add(electronic_in(line.step, 1)),
        optical: totals.optical.wrapping_add(swaps_in(line.step, 1)),
        moved: totals.moved.wrapping_add(usize::from(line.moved)),
    }
}

fn totals_of(codes: &[u8], moved: &[u16]) -> Totals
    ensures { result ≡ totals_of (line_of codes.now moved.now) (lines codes.now moved.now) }
{
    let mut so_far = Totals::default();
    for (&code, &count) in codes.iter().zip(moved) {
        so_far = added(so_far, log_line(code, count));
    }
    so_far
}

fn put_moves(printer: &mut Printer, codes: &[u8], moved: &[u16])
    ensures { Put (rows (move_row (line_of codes.now moved.now)) (lines codes.now moved.now)) printer.old printer.new }
{
    for (i, (&code, &count)) in codes.iter().zip(moved).enumerate() {
        put_move(printer, i + 1, log_line(code, count));
    }
}

fn put_records(printer: &mut Printer, words: &[u32])
    ensures { Put (rows (record_row words.now) (length words.now)) printer.old printer.new }
{
    for (cell, &word) in words.iter().enumerate() {
        put_record(printer, cell, word);
    }
}

// The log's moves, what they add up to, and the records, whose words stand in the first cells.
pub fn answer(out: &mut [u8], codes: &[u8], moved: &[u16], words: &[u32]) -> usize
    ensures { Written out.old 0 (answer_text codes.now moved.now words.now) result out.new }
{
    let mut printer = Printer::new(out);
    printer.put(b"move\tkind\tway\tmoved\n");
    put_moves(&mut printer, codes, moved);
    put_all(&mut printer, totals_of(codes, moved));
    put_records(&mut printer, words);
    printer.at
}

// The one line of a refused job.
pub fn refusal(out: &mut [u8], number: usize, place: usize) -> usize
    ensures { Written out.old 0 (refused_text number place) result out.new }
{
    let mut printer = Printer::new(out);
    printer.put(b"refused\t");
    printer.put_field(number, b'\t');
    printer.put_field(place, b'\n');
    printer.at
}
