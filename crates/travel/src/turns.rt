// One move of a list of runs.
ghost use Rattle.std.specs.Prelude.{◌≡◌};
ghost use Rattle.travel.specs.Turns.{turn_at};

use array::moves::Move;
use runs::{Run, swaps_in};

// A move of a list: how many moves of its run remain, itself counted, and how many swaps were made before it.
#[derive(Clone, Copy, Debug, PartialEq, Eq)]
pub struct Turn {
    pub step: Move,
    pub remaining: usize,
    pub swaps: usize,
}

// Move k of a list; past its end a swap of which none remains.
pub fn turn_at(runs: [Run; 9], k: usize) -> Turn
    ensures { result ≡ turn_at runs k }
{
    let mut remaining = k;
    let mut swaps: usize = 0;
    for run in &runs {
        if remaining < run.times {
            return Turn {
                step: run.step,
                remaining: run.times - remaining,
                swaps: swaps + swaps_in(run.step, remaining),
            };
        }
        swaps += swaps_in(run.step, run.times);
        remaining -= run.times;
    }
    Turn {
        step: Move::Swap,
        remaining: 0,
        swaps,
    }
}
