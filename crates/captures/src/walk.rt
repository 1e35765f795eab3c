// A capture read line by line beside the states of the rule.
ghost use Rattle.std.specs.Prelude.{◌≡◌, Some, None, cond, ◌≤◌, ◌<◌, drop};
ghost use Rattle.lists.specs.Lists.{total_moves};
ghost use Rattle.texts.specs.Lines.{lines_of};
ghost use Rattle.captures.specs.Captures.{order_of, in_turn, in_place, capture_from};
ghost use Rattle.captures.specs.Inside.{no_tally, code_in, behind_move, is_first, behind_record, next_of, expected_from, end_of, resolved_from};

use crate::start::Start;
use crate::state::Records;
use crate::{Held, Replayed};
use answers::Refusal;
use lists::{Trip, runs_of, total_moves};
use runs::step_at;
use texts::read::{Numbers, numbers_in};

// What was read of a capture: how many moves; the place in the order that the next record has to reach; how many records were seen behind
// the last move; and the first move that differs, where one does.
#[derive(Clone, Copy, Debug, PartialEq, Eq)]
pub(crate) struct Tally {
    made: usize,
    next: usize,
    seen: usize,
    differs: Option<usize>,
}

fn no_tally() -> Tally
    ensures { result ≡ no_tally }
{
    Tally {
        made: 0,
        next: 0,
        seen: 0,
        differs: None,
    }
}

// The code of a move of the list, by its number, where the list has it.
fn code_at(side: usize, number: usize) -> Option<u32>
    requires { 0 < number }
    ensures { result ≡ code_in side number }
{
    let step = step_at(runs_of(Trip::Concentrate, side), number - 1)?;
    Some(u32::from(u8::from(step)))
}

// Whether the number of a move is in its turn.
fn in_turn(start: &Start, made: usize, number: usize) -> bool
    ensures { result ≡ in_turn start.now.side made number }
{
    number.checked_sub(1) == Some(made) && number <= total_moves(start.side)
}

// The place of a record in the order.
fn order_of(held: Held) -> usize
    requires cell_bound { held.cell < 81 }
    requires slot_bound { held.slot ≤ 1 }
    ensures { result ≡ order_of held }
{
    held.cell * 2 + held.slot
}

// Whether a record is in its place.
fn in_place(start: &Start, made: usize, next: usize, held: Held) -> bool
    ensures { result ≡ in_place start.now.side made next held }
{
    0 < made && (held.cell < start.n && (held.slot <= 1 && next <= order_of(held)))
}

// Whether a record is the first of those that were not seen yet.
fn is_first(held: Held, records: &Records, seen: usize) -> bool
    ensures { result ≡ is_first held (drop seen records.now) }
{
    Some(held) == records.get(seen)
}

// Behind the line of a move.
fn at_move(start: &Start, tally: Tally, count: usize, number: usize, code: u32) -> Option<Tally>
    ensures { result ≡ cond (in_turn start.now.side tally.made number) (Some (behind_move start.now.side tally count number code)) None }
{
    let made = tally.made;
    if !in_turn(start, made, number) {
        return None;
    }
    let missing = (tally.seen < count).then_some(made);
    let other = (code_at(start.side, number) != Some(code)).then_some(number);
    Some(Tally {
        made: number,
        next: 0,
        seen: 0,
        differs: tally.differs.or(missing).or(other),
    })
}

// Behind the line of a record.
fn at_record(start: &Start, tally: Tally, records: &Records, held: Held) -> Option<Tally>
    requires { tally.seen ≤ 162 }
    ensures { result ≡ cond (in_place start.now.side tally.made tally.next held) (Some (behind_record tally records.now held)) None }
{
    let made = tally.made;
    let seen = tally.seen;
    if !in_place(start, made, tally.next, held) {
        return None;
    }
    let other = (!is_first(held, records, seen)).then_some(made);
    Some(Tally {
        made,
        next: order_of(held) + 1,
        seen: seen + 1,
        differs: tally.differs.or(other),
    })
}

// Behind a line, by its numbers.
fn tallied(
    start: &Start,
    tally: Tally,
    records: &Records,
    numbers: Option<Numbers>,
) -> Option<Tally>
    requires { tally.seen ≤ 162 }
    ensures { result ≡ next_of start.now.side tally records.now numbers }
{
    match numbers? {
        Numbers::Two(number, code) => {
            at_move(start, tally, records.len(), number as usize, code)
        }
        Numbers::Four(cell, slot, word, aim) => {
            let held = Held {
                cell: cell as usize,
                slot: slot as usize,
                word,
                aim,
            };
            at_record(start, tally, records, held)
        }
    }
}

// Puts the records that a capture should have behind a line in place of those before it: those of the state after the last move, which is
// another one behind a move's line.
fn expected(start: &Start, made: usize, now_made: usize, records: &mut Records)
    requires more { made ≤ now_made }
    requires few { now_made ≤ total_moves start.now.side }
    requires listed { records.old ≡ expected_from start.now made }
    ensures { records.new ≡ expected_from start.now now_made }
{
    if made != now_made {
        start.records_after(now_made, records);
    }
}

// What a tally comes to at the end of a capture.
fn ended(start: &Start, tally: Tally, count: usize) -> Replayed
    ensures { result ≡ end_of start.now.side tally count }
{
    if let Some(number) = tally.differs {
        return Replayed::Differs(number);
    }
    if tally.seen < count {
        return Replayed::Differs(tally.made);
    }
    if tally.made == total_moves(start.side) {
        return Replayed::Agrees;
    }
    Replayed::Early(tally.made)
}

// What a capture comes to, from the starting table on.
pub(crate) fn walk(start: &Start, capture: &[u8]) -> Result<Replayed, Refusal>
    ensures { result ≡ resolved_from start.now no_tally (capture_from start.now.side 0 0 1 (lines_of capture.now)) }
{
    let mut tally = no_tally();
    let mut records = Records::new();
    for (i, line) in capture.split_inclusive(|&b| b == b'\n').enumerate() {
        let refusal = Refusal::Capture(i + 1);
        let text = line.strip_suffix(b"\n").ok_or(refusal)?;
        let next = tallied(start, tally, &records, numbers_in(text)).ok_or(refusal)?;
        expected(start, tally.made, next.made, &mut records);
        tally = next;
    }
    Ok(ended(start, tally, records.len()))
}
