// Move lists are data, in nine runs: move k of a list, its codes in a log, and what it counts.
#![tactic(auto)]

ghost use Rattle.std.specs.Prelude.{◌≡◌};
ghost use Rattle.std.proofs.lemmas.List.Edits.{sets};
ghost use Rattle.runs.specs.Runs.{along as along_of, swapping as swapping_of, no_runs, moves, codes as codes_of, step_in, electronic_in, swaps_in};

use array::moves::{Move, Way};

// The same move made several times.
#[derive(Clone, Copy, Debug, PartialEq, Eq)]
pub struct Run {
    pub step: Move,
    pub times: usize,
}

impl Run {
    // So many moves one way.
    pub fn along(way: Way, times: usize) -> Run
        ensures { result ≡ along_of way times }
    {
        Run {
            step: Move::Electronic(way),
            times,
        }
    }

    // So many swaps.
    pub fn swapping(times: usize) -> Run
        ensures { result ≡ swapping_of times }
    {
        Run {
            step: Move::Swap,
            times,
        }
    }
}

// The list of an argument that is refused: no moves.
pub fn no_runs() -> [Run; 9]
    ensures { result ≡ no_runs }
{
    [Run::swapping(0); 9]
}

// Move k of a list, where it is as long.
pub fn step_at(runs: [Run; 9], k: usize) -> Option<Move>
    ensures { result ≡ step_in (moves runs) k }
{
    let mut remaining = k;
    for run in &runs {
        if remaining < run.times {
            return Some(run.step);
        }
        remaining -= run.times;
    }
    None
}

// Writes the codes of the runs into a log from a place on, as far as the log goes; what is before and behind stays.
pub fn write_codes(runs: [Run; 9], log: &mut [u8], from: usize)
    ensures { log.new ≡ sets log.old from (codes_of runs) }
{
    let mut at = from.min(log.len());
    for run in runs {
        let end = at.saturating_add(run.times).min(log.len());
        log[at..end].fill(u8::from(run.step));
        at = end;
    }
}

// How many of n moves of a kind are electronic, and how many are swaps.
pub fn electronic_in(step: Move, n: usize) -> usize
    ensures { result ≡ electronic_in step n }
{
    match step {
        Move::Swap => 0,
        Move::Electronic(_) => n,
    }
}

pub fn swaps_in(step: Move, n: usize) -> usize
    ensures { result ≡ swaps_in step n }
{
    match step {
        Move::Swap => n,
        Move::Electronic(_) => 0,
    }
}
