// What the program writes: lines of a name and its values, parted by tabs. What cannot be written is lost, as the end of a pipe that is closed.
use answers::{Answer, Moves, Refusal};

// The end of the line that says what is called: the side, and how many cells and entries of a log are lent.
pub(crate) fn lent(rt: &impl Print, side: usize, cells: usize, log: usize) {
    let _ = println!(rt; "\tside\t{side}\tcells\t{cells}\tlog\t{log}");
}

pub(crate) fn answer(rt: &impl Print, outcome: Result<Moves, Refusal>) {
    let answer = Answer::from(outcome);
    let number = answer.number;
    let place = answer.place;
    let electronic = answer.electronic;
    let swaps = answer.swaps;
    let _ = println!(rt; "answer\t{number}\t{place}\t{electronic}\t{swaps}");
}

// The sum of the prefix sums, modulo 2^32, which tells where an entry stands as well.
fn check<T: Copy + Into<u32>>(row: &[T]) -> u32 {
    let mut sum: u32 = 0;
    let mut sums: u32 = 0;
    for &entry in row {
        sum = sum.wrapping_add(entry.into());
        sums = sums.wrapping_add(sum);
    }
    sums
}

// The entries where they can be read, and else their check.
pub(crate) fn line<T: Copy + Into<u32>>(rt: &impl Print, name: &str, row: &[T]) {
    let _ = rt.print(name);
    if row.len() <= 81 {
        for &entry in row {
            let value: u32 = entry.into();
            let _ = print!(rt; "\t{value}");
        }
    } else {
        let sums = check(row);
        let _ = print!(rt; " checked\t{sums}");
    }
    let _ = println!(rt);
}

// The lanes of a slot of every cell, front or spare.
pub(crate) fn slots(rt: &impl Print, words: &[u32], marks: &[u8], aims: &[u16]) {
    line(rt, "words", words);
    line(rt, "marks", marks);
    line(rt, "aims", aims);
}
