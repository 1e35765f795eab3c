// A swap: every cell and its partner, at the other end of the light, exchange what they hold, in a lane of words or in all six lanes.
#![tactic(auto)]

ghost use Rattle.std.specs.Prelude.{◌≡◌, true, ◌<◌, length, IfSome};
ghost use Rattle.std.specs.List.{swap};
ghost use Rattle.array.specs.Cells.{is_board, is_side, groups, cell, partner};
ghost use Rattle.array.specs.Lent.{slots_fit, SameSlots, SameLanes};
ghost use Rattle.light.specs.Lane.{swapped_lane};
ghost use Rattle.light.specs.Lanes.{slots, held, swaps_on, SwappedLent};
ghost use Rattle.light.specs.Inside.{Listed, GroupTurned, HasCell, Traded, SlotsTurned, Once, Times};

use array::cells::is_board;
use array::lent::{LentLanes, LentSlots};
use links::links_of;

// The partner of cell p of group g: by the group's links, where they are given, and else cell g of group p.
fn across(side: usize, links: Option<&[u16; 64]>, g: usize, p: usize) -> usize
    requires a_side { is_side side ≡ true }
    requires listed { IfSome links (λ list. Listed side g list.now) }
    requires in_range { (g < groups side) × (p < groups side) }
    ensures { result ≡ partner side (cell side g p) }
{
    match links {
        Some(list) => usize::from(list[p]),
        None => p * (side * side) + g,
    }
}

// Cells j and p of a lane exchange what they hold. The library's `swap` compares the two at every pair besides, and a swap of a board takes
// 24 in 100 more time at side 4, 5 at side 8.
fn exchange<T: Copy>(j: usize, p: usize, lane: &mut [T])
    requires order { j < p }
    requires in_range { p < length lane.old }
    ensures { lane.new ≡ swap lane.old j p }
{
    let held = lane[j];
    lane[j] = lane[p];
    lane[p] = held;
}

// The cells of group g trade with their partners, where these come later. They are those past place g.
fn trade_places(side: usize, links: Option<&[u16; 64]>, g: usize, lane: &mut [u32])
    requires board { is_board side (length lane.old) ≡ true }
    requires listed { IfSome links (λ list. Listed side g list.now) }
    requires in_range { g < groups side }
    ensures { GroupTurned side g lane.old lane.new }
{
    let groups = side * side;
    for p in g + 1..groups {
        let q = across(side, links, g, p);
        exchange(g * groups + p, q, lane);
    }
}

// The turn of group g; side 8 goes by the board's link list, of which a group needs its own part. It has a call of its own: with the part in an
// Option, room for it is filled at every side, and a shift of groups at side 4 takes 12 in 100 more time.
fn trade_group(side: usize, g: usize, lane: &mut [u32])
    requires board { is_board side (length lane.old) ≡ true }
    requires in_range { g < groups side }
    ensures { GroupTurned side g lane.old lane.new }
{
    if side == 8 {
        trade_places(side, Some(&links_of(g)), g, lane);
    } else {
        trade_places(side, None, g, lane);
    }
}

// Each cell trades with its partner, where that comes later: one group after the other.
fn trade_words(side: usize, lane: &mut [u32])
    requires { is_board side (length lane.old) ≡ true }
    ensures { lane.new ≡ swapped_lane side lane.old }
{
    for g in 0..side * side {
        trade_group(side, g, lane);
    }
}

// A swap; what is no lane of a board stays.
pub fn swap_words(side: usize, lane: &mut [u32])
    ensures { lane.new ≡ swapped_lane side lane.old }
{
    if is_board(side, lane.len()) {
        trade_words(side, lane);
    }
}

// Cells j and p trade what they hold in one slot; how many records are in another cell then. The lanes come one by one here and in the loop
// that calls it: read out of a struct at every pair, a swap takes 30 in 100 more time.
fn trade_slot(j: usize, p: usize, words: &mut [u32], marks: &mut [u8], aims: &mut [u16]) -> usize
    requires order { j < p }
    requires has_cell { HasCell p (slots words.old marks.old aims.old) }
    ensures { Traded j p (slots words.old marks.old aims.old) (slots words.new marks.new aims.new) result }
{
    let moved = usize::from(marks[j] != 0) + usize::from(marks[p] != 0);
    exchange(j, p, words);
    exchange(j, p, marks);
    exchange(j, p, aims);
    moved
}

// The part of the board's link list that is group g's; side 8 alone goes by the list.
fn group_links(side: usize, g: usize) -> Option<[u16; 64]>
    requires { g < groups side }
    ensures { IfSome result (λ list. Listed side g list) }
{
    if side == 8 { Some(links_of(g)) } else { None }
}

// The turn of group g in one slot; how many records are in another cell then.
fn trade_group_slots(side: usize, g: usize, slots: &mut LentSlots) -> usize
    requires board { slots_fit side slots.old ≡ true }
    requires in_range { g < groups side }
    ensures same { SameSlots slots.old slots.new }
    ensures turned { SlotsTurned side g (held slots.old) (held slots.new) result }
{
    let links = group_links(side, g);
    let groups = side * side;
    let words = &mut *slots.words;
    let marks = &mut *slots.marks;
    let aims = &mut *slots.aims;
    let mut moved: usize = 0;
    for p in g + 1..groups {
        let q = across(side, links.as_ref(), g, p);
        moved += trade_slot(g * groups + p, q, words, marks, aims);
    }
    moved
}

// Each cell trades with its partner, where that comes later, in one slot; how many records are in another cell.
fn trade_slots(side: usize, slots: &mut LentSlots) -> usize
    requires { slots_fit side slots.old ≡ true }
    ensures same { SameSlots slots.old slots.new }
    ensures once { Once side (held slots.old) (held slots.new) result }
{
    let mut moved: usize = 0;
    for g in 0..side * side {
        moved += trade_group_slots(side, g, slots);
    }
    moved
}

// So many swaps of one slot's lanes, where they are a board's, and none else; how many of their records each takes to another cell.
fn trade_times(side: usize, times: usize, slots: &mut LentSlots) -> usize
    ensures same { SameSlots slots.old slots.new }
    ensures times { Times side (swaps_on side times (held slots.old)) (held slots.old) (held slots.new) result }
{
    let mut moved: usize = 0;
    if slots.fit(side) {
        for _ in 0..times {
            moved = trade_slots(side, slots);
        }
    }
    moved
}

// So many swaps of all six lanes; how many records each takes to another cell. A slot's lanes that are not a board's stay.
pub fn swap_lanes(side: usize, times: usize, lanes: &mut LentLanes) -> usize
    ensures same { SameLanes lanes.old lanes.new }
    ensures swapped { SwappedLent side times lanes result }
{
    trade_times(side, times, lanes.front) + trade_times(side, times, lanes.spare)
}
