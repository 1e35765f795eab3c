// Reads a job from standard input, and writes its answer, or the one line of a refusal, to standard output.
// One byte more than a job may have is asked for: that many tell that it is too long. What a short read or a closed input gives is judged.
#![tactic(auto)]

use texts::input::read_full;

fn main(rt: HostRuntime) {
    let mut text = [0; 65537];
    let n = read_full(&mut rt.stdin(), &mut text).unwrap_or_else(|broken| broken.behind);
    let mut out = [0; 196608];
    let count = jobs::run(&text[..n], &mut out);
    if rt.write_all(&out[..count]).is_err() {
        let _ = rt.eprintln("job: the output could not be written whole");
    }
}
