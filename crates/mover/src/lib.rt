// The mover: the moves of whatever list it is given, made one run after the other up to a cut, on six lanes.
#![tactic(auto)]

ghost use Rattle.std.specs.Prelude.{◌≡◌, true, ℕ, ◌+◌, ◌<◌, ◌≤◌, set};
ghost use Rattle.std.proofs.lemmas.List.Edits.{sets};
ghost use Rattle.laws.specs.Lent.{old, new};
ghost use Rattle.laws.specs.Tables.{entries};
ghost use Rattle.array.specs.Cells.{is_side, cells};
ghost use Rattle.array.specs.Lent.{SameLanes};
ghost use Rattle.slots.specs.Lanes.{lent_cells, LongLent};
ghost use Rattle.mesh.specs.Lines.{goes_in};
ghost use Rattle.mover.specs.Runs.{low_after, is_late, leg_of, RanListLent};
ghost use Rattle.mover.specs.Inside.{movers as movers_of, tallied, FewWent, MadeRun};

use array::lent::LentLanes;
use array::moves::{Move, Way};
use light::swap_lanes;
use lists::Trip;
use mesh::{Leg, run_all};
use runs::Run;

// Whether a record heads for its aim mod N after so many swaps.
fn low_after(trip: Trip, swaps: usize) -> bool
    ensures { result ≡ low_after trip swaps }
{
    match trip {
        Trip::Concentrate => swaps == 0,
        Trip::Distribute => swaps == 2,
    }
}

fn is_late(trip: Trip) -> bool
    ensures { result ≡ is_late trip }
{
    match trip {
        Trip::Concentrate => false,
        Trip::Distribute => true,
    }
}

// A run one way of which so many moves are made.
fn leg_of(trip: Trip, side: usize, swaps: usize, way: Way, times: usize, made: usize) -> Leg
    ensures { result ≡ leg_of trip side swaps way times made }
{
    Leg {
        side,
        way,
        low: low_after(trip, swaps),
        late: is_late(trip),
        times,
        made,
    }
}

// Whether a record goes in move j of a run that had d cells to go.
fn goes_in(late: bool, times: usize, j: usize, d: usize) -> bool
    ensures { result ≡ goes_in late times j d }
{
    if late {
        times.saturating_sub(1).saturating_sub(j) < d
    } else {
        j < d
    }
}

// How many records go in move j, by how far those had to go that went.
fn movers(late: bool, times: usize, went: [usize; 8], j: usize) -> usize
    requires { FewWent went }
    ensures { result ≡ movers_of late times went j }
{
    let mut count: usize = 0;
    for (d, &n) in went.iter().enumerate() {
        if goes_in(late, times, j, d) {
            count += n;
        }
    }
    count
}

// Writes the count of move k, as far as the log goes.
fn log_count(log: &mut [u16], k: usize, count: usize)
    requires { count ≤ 65535 }
    ensures { new log ≡ set log.old k count }
{
    if k < log.len() {
        log[k] = count as u16;
    }
}

// What is known of the first moves of a run once they are made: how many they are, and how many of them swaps; how many records went that had
// 0 to 7 cells to go, and how many each swap took to another cell.
#[derive(Clone, Copy, Debug, PartialEq, Eq)]
struct Tally {
    made: usize,
    swaps: usize,
    went: [usize; 8],
    swapped: usize,
}

// Writes the counts of the moves that were made of a run of so many, from a place of the log on.
fn log_run(trip: Trip, times: usize, from: usize, tally: Tally, moved: &mut [u16])
    requires few_went { FewWent tally.went × (from + tally.made < 18446744073709551616) }
    requires few_counts { (j : ℕ) → j < tally.made → tallied (is_late trip) times tally j ≤ 65535 }
    ensures { new moved ≡ sets moved.old from (entries (tallied (is_late trip) times tally) 0 tally.made) }
{
    let late = is_late(trip);
    let went = tally.went;
    for j in 0..tally.made {
        let count = movers(late, times, went, j) + tally.swapped;
        log_count(moved, from + j, count);
    }
}

// The first moves of a run, where so many swaps were made before: as many as remain to be made.
fn make_run(
    trip: Trip,
    side: usize,
    swaps: usize,
    run: Run,
    remaining: usize,
    lanes: &mut LentLanes,
) -> Tally
    requires a_side { is_side side ≡ true }
    requires long { LongLent (cells side) lanes.old }
    ensures same { SameLanes lanes.old lanes.new }
    ensures made { MadeRun trip side swaps run remaining result (lent_cells lanes.old) (lent_cells lanes.new) }
{
    let made = run.times.min(remaining);
    match run.step {
        Move::Swap => Tally {
            made,
            swaps: made,
            went: [0; 8],
            swapped: swap_lanes(side, made, lanes),
        },
        Move::Electronic(way) => Tally {
            made,
            swaps: 0,
            went: run_all(leg_of(trip, side, swaps, way, run.times, made), lanes),
            swapped: 0,
        },
    }
}

// Makes the first moves of a list, up to the cut, and logs how many records each took to another cell. Lanes that are not a board's stay as
// they are.
pub fn run(
    trip: Trip,
    side: usize,
    runs: [Run; 9],
    cut: usize,
    lanes: &mut LentLanes,
    moved: &mut [u16],
)
    ensures same { SameLanes lanes.old lanes.new }
    ensures ran { RanListLent trip side runs cut lanes moved }
{
    if !lanes.fit(side) {
        return;
    }
    let mut swaps: usize = 0;
    let mut done: usize = 0;
    for run in runs {
        let tally = make_run(trip, side, swaps, run, cut - done, lanes);
        log_run(trip, run.times, done, tally, moved);
        swaps += tally.swaps;
        done += tally.made;
    }
}
