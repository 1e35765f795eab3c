// What bench software written in C calls; include/otis.h declares it. A slice passes as a pointer and then a length. Nothing holds a
// C declaration to these signatures, so the boundary trusts the header, which tests alone check.
#![tactic(auto)]

ghost use Rattle.std.specs.Prelude.{◌≡◌};
ghost use Rattle.captures.specs.Replays.{replay_of};
ghost use Rattle.lists.specs.declared.Trip.TheVariants.{Concentrate, Distribute};
ghost use Rattle.ranking.specs.Entries.{Ranked};
ghost use Rattle.records.specs.Entries.{FullRun};
ghost use Rattle.plainrecords.specs.Entries.{PlainRank, PlainRun};
ghost use Rattle.otis.specs.Outcomes.{outcome_of};

use answers::{Answer, Refusal};
use array::lent::{LentLanes, LentSlots};
use captures::{Replayed, replay};
use lists::Trip;
use ranking::rank;

// The version of what C sees here. It is raised, with OTIS_VERSION in the header, whenever a parameter or the answer changes.
#[unsafe(no_mangle)]
pub extern "C" fn otis_version() -> u32
    ensures { result ≡ 3 }
{
    3
}

#[unsafe(no_mangle)]
pub extern "C" fn otis_rank(side: usize, marks: &[u8], aims: &mut [u16], codes: &mut [u8]) -> Answer
    ensures { Ranked side marks.now aims codes result }
{
    rank(side, marks, aims, codes).into()
}

#[unsafe(no_mangle)]
pub extern "C" fn otis_concentrate(
    side: usize,
    words: &mut [u32],
    marks: &mut [u8],
    aims: &mut [u16],
    spare_words: &mut [u32],
    spare_marks: &mut [u8],
    spare_aims: &mut [u16],
    codes: &mut [u8],
    moved: &mut [u16],
) -> Answer
    ensures { FullRun Concentrate side words marks aims spare_words spare_marks spare_aims codes moved result }
{
    let mut front = LentSlots { words, marks, aims };
    let mut spare = LentSlots {
        words: spare_words,
        marks: spare_marks,
        aims: spare_aims,
    };
    let mut lanes = LentLanes {
        front: &mut front,
        spare: &mut spare,
    };
    records::run(Trip::Concentrate, side, &mut lanes, codes, moved).into()
}

#[unsafe(no_mangle)]
pub extern "C" fn otis_distribute(
    side: usize,
    words: &mut [u32],
    marks: &mut [u8],
    aims: &mut [u16],
    spare_words: &mut [u32],
    spare_marks: &mut [u8],
    spare_aims: &mut [u16],
    codes: &mut [u8],
    moved: &mut [u16],
) -> Answer
    ensures { FullRun Distribute side words marks aims spare_words spare_marks spare_aims codes moved result }
{
    let mut front = LentSlots { words, marks, aims };
    let mut spare = LentSlots {
        words: spare_words,
        marks: spare_marks,
        aims: spare_aims,
    };
    let mut lanes = LentLanes {
        front: &mut front,
        spare: &mut spare,
    };
    records::run(Trip::Distribute, side, &mut lanes, codes, moved).into()
}

// The final table at once, without moves and without logs.
#[unsafe(no_mangle)]
pub extern "C" fn otis_plain_rank(side: usize, marks: &[u8], aims: &mut [u16]) -> Answer
    ensures { PlainRank side marks.now aims result }
{
    plainrecords::rank(side, marks, aims).into()
}

#[unsafe(no_mangle)]
pub extern "C" fn otis_plain_concentrate(
    side: usize,
    words: &mut [u32],
    marks: &mut [u8],
    aims: &mut [u16],
    spare_words: &mut [u32],
    spare_marks: &mut [u8],
    spare_aims: &mut [u16],
) -> Answer
    ensures { PlainRun Concentrate side words marks aims spare_words spare_marks spare_aims result }
{
    let mut front = LentSlots { words, marks, aims };
    let mut spare = LentSlots {
        words: spare_words,
        marks: spare_marks,
        aims: spare_aims,
    };
    let mut lanes = LentLanes {
        front: &mut front,
        spare: &mut spare,
    };
    plainrecords::run(Trip::Concentrate, side, &mut lanes).into()
}

#[unsafe(no_mangle)]
pub extern "C" fn otis_plain_distribute(
    side: usize,
    words: &mut [u32],
    marks: &mut [u8],
    aims: &mut [u16],
    spare_words: &mut [u32],
    spare_marks: &mut [u8],
    spare_aims: &mut [u16],
) -> Answer
    ensures { PlainRun Distribute side words marks aims spare_words spare_marks spare_aims result }
{
    let mut front = LentSlots { words, marks, aims };
    let mut spare = LentSlots {
        words: spare_words,
        marks: spare_marks,
        aims: spare_aims,
    };
    let mut lanes = LentLanes {
        front: &mut front,
        spare: &mut spare,
    };
    plainrecords::run(Trip::Distribute, side, &mut lanes).into()
}

// What C gets of a replay: 0 agrees, 1 differs, 2 early or 3 refused; the move; and the number and the place of a refusal.
#[repr(C)]
#[derive(Clone, Copy, Debug, PartialEq, Eq)]
pub struct Outcome {
    pub outcome: usize,
    pub step: usize,
    pub number: usize,
    pub place: usize,
}

impl From<Result<Replayed, Refusal>> for Outcome {
    ghost from_gives = { λ replayed r. r ≡ outcome_of replayed };

    fn from(replayed: Result<Replayed, Refusal>) -> Outcome {
        let (outcome, step) = match replayed {
            Ok(Replayed::Agrees) => (0, 0),
            Ok(Replayed::Differs(step)) => (1, step),
            Ok(Replayed::Early(step)) => (2, step),
            Err(refusal) => {
                return Outcome {
                    outcome: 3,
                    step: 0,
                    number: refusal.number(),
                    place: refusal.place(),
                };
            }
        };
        Outcome {
            outcome,
            step,
            number: 0,
            place: 0,
        }
    }
}

#[unsafe(no_mangle)]
pub extern "C" fn otis_replay(
    side: usize,
    words: &[u32],
    marks: &[u8],
    aims: &[u16],
    capture: &[u8],
) -> Outcome
    ensures { result ≡ outcome_of (replay_of side words.now marks.now aims.now capture.now) }
{
    replay(side, words, marks, aims, capture).into()
}
