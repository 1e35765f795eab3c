// Electronic moves of one lane: in a group's own stretch, in all groups, and in runs.
ghost use Rattle.std.specs.Prelude.{◌≡◌, ℕ, ◌≤◌, ◌<◌, length};
ghost use Rattle.lanes.specs.Machine.{all};
ghost use Rattle.lanes.specs.Stages.{steps_on};
ghost use Rattle.lanes.specs.Inside.{FitsBoard, Group, Moved, Places, PlacesLaid, LineIn, LineMade, LinesIn, LinesMade, behind_of, line_at, beginning_of, filling, stepped, stepped_all};
ghost use Rattle.lanes.specs.Runs.{running};

use crate::Joining;
use array::moves::Way;

// What the cells do in one move; the front is the position whose turn it is.
#[derive(Clone, Copy, Debug, PartialEq, Eq)]
pub struct JoinRule {
    pub joining: Joining,
    pub front: usize,
}

// The places that take a word in a move, and those from which it comes: the first of each, how far apart they are, and how many.
#[derive(Clone, Copy, Debug, PartialEq, Eq)]
pub struct LinePlaces {
    pub to: usize,
    pub from: usize,
    pub apart: usize,
    pub count: usize,
}

// The places of a line make of their words and of those that come to them what the step makes.
fn join_places<F: Fn(u32, u32) -> u32>(part: &mut [u32], line: LinePlaces, step: F)
    requires callable { (own : ℕ) (x : ℕ) → F.pre step own x }
    requires line_in { LineIn line (length part.old) }
    ensures { LineMade (F.post step) line part.old part.new }
{
    let LinePlaces {
        to,
        from,
        apart,
        count,
    } = line;
    for k in 0..count {
        let i = to + k * apart;
        let j = from + k * apart;
        part[i] = step(part[i], part[j]);
    }
}

// Nothing happens where no word comes.
fn join_line<F: Fn(u32, u32) -> u32>(part: &mut [u32], line: Option<LinePlaces>, step: F)
    requires callable { (own : ℕ) (x : ℕ) → F.pre step own x }
    requires lines_in { LinesIn line (length part.old) }
    ensures { LinesMade (F.post step) line part.old part.new }
{
    if let Some(line) = line {
        join_places(part, line, step);
    }
}

// So many places hold 0.
fn clear_places(part: &mut [u32], to: usize, apart: usize, count: usize)
    requires { Places to apart count (length part.old) }
    ensures { PlacesLaid to apart count (λ k. 0) part.old part.new }
{
    for k in 0..count {
        part[to + k * apart] = 0;
    }
}

// The position k steps on from e.
fn steps_on(way: Way, e: usize, k: usize) -> usize
    requires { (e ≤ 8) × (k ≤ 9) }
    ensures { result ≡ steps_on way e k }
{
    if way.is_forth() {
        e + k
    } else {
        e.saturating_sub(k)
    }
}

// The lines along which words go on a board of this side.
#[derive(Clone, Copy, Debug, PartialEq, Eq)]
pub(crate) struct Lines {
    pub(crate) side: usize,
    pub(crate) way: Way,
}

impl Lines {
    // The position whose word comes to position p, where there is one.
    fn behind(self, p: usize) -> Option<usize>
        requires { p < self.side }
        ensures { result ≡ behind_of self.side self.way p }
    {
        if self.way.is_forth() {
            p.checked_sub(1)
        } else {
            (p + 1 < self.side).then_some(p + 1)
        }
    }

    // The places at position p and those behind them; none where no word comes.
    fn line_at(self, p: usize) -> Option<LinePlaces>
        requires { (1 ≤ self.side) × (self.side ≤ 8) }
        ensures { result ≡ line_at self.side self.way p }
    {
        if self.side <= p {
            return None;
        }
        let q = self.behind(p)?;
        let stride = self.way.stride(self.side);
        Some(LinePlaces {
            to: p * stride,
            from: q * stride,
            apart: self.way.line_gap(self.side),
            count: self.side,
        })
    }

    // The position to which no word comes: that from which the lines begin.
    fn beginning(self) -> usize
        requires { 1 ≤ self.side }
        ensures { result ≡ beginning_of self.side self.way }
    {
        if self.way.is_forth() {
            0
        } else {
            self.side - 1
        }
    }

    // A move in which every position has its turn: all words of the stretch go on by one place of their lines, over the ends too, and then those
    // that begin a line hold 0.
    fn fill(self, part: &mut [u32])
        requires { Group self.side (length part.old) }
        ensures { part.new ≡ stepped self.side self.way filling part.old }
    {
        let stride = self.way.stride(self.side);
        if self.way.is_forth() {
            part.copy_within(..part.len() - stride, stride);
        } else {
            part.copy_within(stride.., 0);
        }
        clear_places(
            part,
            self.beginning() * stride,
            self.way.line_gap(self.side),
            self.side,
        );
    }

    // One move inside a group, in its own stretch: with a front that position alone has its turn.
    fn step(self, part: &mut [u32], rule: JoinRule, line: Option<LinePlaces>)
        requires group { Group self.side (length part.old) }
        requires line_value { line ≡ line_at self.side self.way rule.front }
        ensures { part.new ≡ stepped self.side self.way rule part.old }
    {
        match rule.joining {
            Joining::Add => join_line(part, line, |own, x| own.wrapping_add(x)),
            Joining::Copy => join_line(part, line, |_, x| x),
            Joining::Fill => self.fill(part),
        }
    }

    // One move of all groups: each is lent its own stretch of the lane.
    fn step_all(self, words: &mut [u32], rule: JoinRule)
        requires { FitsBoard self.side (length words.old) }
        ensures { Moved self.side (stepped_all self.side self.way rule) words.old words.new }
    {
        let line = self.line_at(rule.front);
        let n = self.side * self.side;
        for g in 0..n {
            let a = g * n;
            let e = a + n;
            self.step(&mut words[a..e], rule, line);
        }
    }

    // n moves one way on a board; with a front they start at position e.
    pub(crate) fn run(self, words: &mut [u32], joining: Joining, e: usize, n: usize)
        requires fits_board { FitsBoard self.side (length words.old) }
        requires e_bound { (e ≤ 8) × (n ≤ 8) }
        ensures { Moved self.side (all self.side (running self.way joining e n)) words.old words.new }
    {
        for k in 0..n {
            let front = steps_on(self.way, e, k + 1);
            self.step_all(words, JoinRule { joining, front });
        }
    }
}
