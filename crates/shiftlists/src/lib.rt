// The move lists of the eight shifts.
#![tactic(auto)]

ghost use Rattle.std.specs.Prelude.{◌≡◌, ◌≤◌, [], ◌∷◌};
ghost use Rattle.answers.specs.Judged.{Judged};
ghost use Rattle.shiftlists.specs.Cases.{distance_case};
ghost use Rattle.shiftlists.specs.Shifts.{distance_of, within, modulo, is_nothing, circular_moves, forth_moves, back_moves, forth_way, swaps_of, shift_list, shift_runs};

use answers::Refusal;
use array::moves::{Way, opposite};
use runs::{Run, no_runs};

// What a shift changes: the column or the row of a cell's place, or of its group.
#[derive(Clone, Copy, Debug, PartialEq, Eq)]
pub enum Axis {
    MeshRow,
    MeshColumn,
    GroupRow,
    GroupColumn,
}

// What becomes of a word that a shift takes over the edge.
#[derive(Clone, Copy, Debug, PartialEq, Eq)]
pub enum Edge {
    ZeroFill,
    Circular,
}

// How far a shift goes forth, or how far back: one of the two is 0. The functions of a distance promise their answer for any two numbers.
#[derive(Clone, Copy, Debug, PartialEq, Eq)]
pub struct Distance {
    pub forth: usize,
    pub back: usize,
}

impl From<i32> for Distance {
    ghost from_gives = { λ k distance. distance ≡ distance_of k };

    fn from(k: i32) -> Distance {
        let far = k.unsigned_abs() as usize;
        if k < 0 {
            Distance {
                forth: 0,
                back: far,
            }
        } else {
            Distance {
                forth: far,
                back: 0,
            }
        }
    }
}

pub fn is_within(side: usize, k: Distance) -> bool
    ensures { result ≡ within side k }
{
    k.forth < side && k.back < side
}

pub fn check_distance(side: usize, k: i32) -> Result<(), Refusal>
    ensures { Judged (distance_case side k ∷ []) result }
{
    is_within(side, Distance::from(k))
        .then_some(())
        .ok_or(Refusal::Argument)
}

// k modulo the side, of a k within the side.
pub fn modulo(side: usize, k: Distance) -> usize
    ensures { result ≡ modulo side k }
{
    if 0 < k.back {
        side.saturating_sub(k.back)
    } else {
        k.forth
    }
}

fn is_nothing(k: Distance) -> bool
    ensures { result ≡ is_nothing k }
{
    k.forth == 0 && k.back == 0
}

// A row has no cell as far away as the side, so a shift by nothing makes no move.
pub fn circular_moves(side: usize, k: Distance) -> usize
    ensures { result ≡ circular_moves side k }
{
    if is_nothing(k) { 0 } else { side }
}

fn forth_moves(edge: Edge, side: usize, k: Distance) -> usize
    requires { (k.back ≤ side) × (k.forth ≤ side) }
    ensures { result ≡ forth_moves edge side k }
{
    match edge {
        Edge::ZeroFill => k.forth,
        Edge::Circular => modulo(side, k),
    }
}

fn back_moves(edge: Edge, side: usize, k: Distance) -> usize
    requires { (k.back ≤ side) × (k.forth ≤ side) }
    ensures { result ≡ back_moves edge side k }
{
    match edge {
        Edge::ZeroFill => k.back,
        Edge::Circular => circular_moves(side, k) - modulo(side, k),
    }
}

fn forth_way(axis: Axis) -> Way
    ensures { result ≡ forth_way axis }
{
    match axis {
        Axis::MeshRow => Way::Right,
        Axis::MeshColumn => Way::Down,
        Axis::GroupRow => Way::Right,
        Axis::GroupColumn => Way::Down,
    }
}

fn swaps_of(axis: Axis) -> usize
    ensures { result ≡ swaps_of axis }
{
    match axis {
        Axis::MeshRow => 0,
        Axis::MeshColumn => 0,
        Axis::GroupRow => 1,
        Axis::GroupColumn => 1,
    }
}

fn shift_list(axis: Axis, forth: usize, back: usize) -> [Run; 9]
    ensures { result ≡ shift_list axis forth back }
{
    let way = forth_way(axis);
    let light = Run::swapping(swaps_of(axis));
    let there = Run::along(way, forth);
    let home = Run::along(opposite(way), back);
    let none = Run::swapping(0);
    [light, there, home, light, none, none, none, none, none]
}

pub fn shift_runs(side: usize, axis: Axis, edge: Edge, k: i32) -> [Run; 9]
    ensures { result ≡ shift_runs side axis edge k }
{
    let distance = Distance::from(k);
    if !is_within(side, distance) {
        return no_runs();
    }
    let forth = forth_moves(edge, side, distance);
    let back = back_moves(edge, side, distance);
    shift_list(axis, forth, back)
}
