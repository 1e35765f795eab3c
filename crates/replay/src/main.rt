// Reads the job file and the capture file that its two words name, and writes the line that answers them to standard output.
// One byte more than a text may have is asked for: that many tell that it is too long. What a file holds is for the library to judge.
#![tactic(auto)]

ghost use Rattle.std.specs.Prelude.{◌≤◌, length, IfSome};

use std::env::{Env, FillError};
use std::fs;
use std::fs::Files;
use texts::input::read_full;

// Reads the file that a word names: how many bytes there are, or none where it cannot be read. No name is as long as some words. A folder can be
// opened, and every read of it fails.
fn read_named<R: Env + Files>(rt: &R, word: usize, text: &mut [u8; 65537]) -> Option<usize>
    ensures { IfSome result (λ n. n ≤ length text.new) }
{
    let mut name = [0; 4096];
    let length = rt.arg(word, &mut name).ok()?;
    let path = str::from_utf8(&name[..length]).ok()?;
    let mut file = fs::open(rt, path).ok()?;
    read_full(&mut file, text).ok()
}

// Whether the program was started with such a word; its own name is word 0.
fn has_word(rt: &impl Env, word: usize) -> bool {
    !matches!(rt.arg(word, &mut [0u8; 1]), Err(FillError::NotPresent))
}

// Writes the line that answers a job and a capture.
fn answer(rt: &(impl Print + Eprint), job: &[u8], capture: &[u8]) {
    let mut out = [0; 64];
    let count = replays::run(job, capture, &mut out);
    if rt.write_all(&out[..count]).is_err() {
        let _ = rt.eprintln("replay: the output could not be written whole");
    }
}

fn main(rt: HostRuntime) {
    if !has_word(&rt, 2) || has_word(&rt, 3) {
        let _ = rt.eprintln(
            "replay: two words are wanted, the names of a job file and a capture file",
        );
        return;
    }
    let mut job = [0; 65537];
    let Some(job_bytes) = read_named(&rt, 1, &mut job) else {
        let _ = rt.eprintln("replay: the job file cannot be read");
        return;
    };
    let mut capture = [0; 65537];
    let Some(capture_bytes) = read_named(&rt, 2, &mut capture) else {
        let _ = rt.eprintln("replay: the capture file cannot be read");
        return;
    };
    answer(&rt, &job[..job_bytes], &capture[..capture_bytes]);
}
