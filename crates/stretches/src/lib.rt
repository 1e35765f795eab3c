// A group's own stretch of a lane of words, and the answer of who asks for it.
#![tactic(auto)]

ghost use Rattle.std.specs.Prelude.{◌≡◌, ltb, length, [], ◌∷◌};
ghost use Rattle.array.specs.Cells.{groups};
ghost use Rattle.answers.specs.Answers.{answer_of};
ghost use Rattle.answers.specs.Judged.{Judged};
ghost use Rattle.stretches.specs.Stretches.{group_case, group_answer, group_words};

use answers::{Moves, Refusal, check_lane, check_side, moves_of};
use runs::no_runs;

// There are side × side groups; where that is no number of 64 bits, there are more than there are numbers.
fn is_group(side: usize, group: usize) -> bool
    ensures { result ≡ ltb group (groups side) }
{
    side.checked_mul(side).is_none_or(|groups| group < groups)
}

fn check_group(side: usize, group: usize) -> Result<(), Refusal>
    ensures { Judged (group_case side group ∷ []) result }
{
    is_group(side, group).then_some(()).ok_or(Refusal::Argument)
}

fn judge_group(side: usize, group: usize, length: usize) -> Result<Moves, Refusal>
    ensures { answer_of result ≡ group_answer side group length }
{
    check_side(side)?;
    check_lane(side, length)?;
    check_group(side, group)?;
    Ok(moves_of(no_runs()))
}

// The caller's own stretch of words of a group, or an empty one where that is refused.
pub fn group_words(side: usize, group: usize, words: &[u32]) -> &[u32]
    ensures { result.now ≡ group_words side group words.now }
{
    let Ok(_) = judge_group(side, group, words.len()) else {
        return &words[..0];
    };
    let n = side * side;
    let start = group * n;
    &words[start..start + n]
}

// The answer of the same.
pub fn group_words_answer(side: usize, group: usize, words: &[u32]) -> Result<Moves, Refusal>
    ensures { answer_of result ≡ group_answer side group (length words.now) }
{
    judge_group(side, group, words.len())
}
