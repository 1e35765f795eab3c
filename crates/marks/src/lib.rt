// The check of the marks, which every entry that reads marks makes, and how many there are.
#![tactic(auto)]

ghost use Rattle.std.specs.Prelude.{◌≡◌, ◌%◌, ◌^◌, ◌≤◌, [], ◌∷◌, EachIndex, leb, length, position, slice_index};
ghost use Rattle.answers.specs.Judged.{Judged};
ghost use Rattle.marks.specs.Marks.{marks_case, rank_in};

use answers::Refusal;

// No mark is above it.
fn greatest_mark(marks: &[u8]) -> u8
    ensures { EachIndex marks.now (λ k. slice_index marks.now k ≤ result) }
{
    let mut most: u8 = 0;
    for &mark in marks {
        most = most.max(mark);
    }
    most
}

// The first cell whose mark is neither 0 nor 1.
fn first_bad(marks: &[u8]) -> Option<usize>
    ensures { result ≡ position (leb 2) marks.now }
{
    marks.iter().position(|&mark| 2 <= mark)
}

// The greatest mark is looked for first: for that a processor takes many marks at a time, and for the first bad one it goes mark by mark.
pub fn check_marks(marks: &[u8]) -> Result<(), Refusal>
    ensures { Judged (marks_case marks.now ∷ []) result }
{
    if greatest_mark(marks) < 2 {
        return Ok(());
    }
    match first_bad(marks) {
        Some(cell) => Err(Refusal::Mark(cell)),
        None => Ok(()),
    }
}

// How many cells are marked, modulo 2^16: no board has as many. Of numbers of 16 bits a processor adds many at a time.
pub fn count_marks(marks: &[u8]) -> usize
    ensures { result ≡ rank_in marks.now (length marks.now) % 2 ^ 16 }
{
    let mut count: u16 = 0;
    for &mark in marks {
        count = count.wrapping_add(u16::from(mark));
    }
    usize::from(count)
}
