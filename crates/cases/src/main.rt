// Runs every entry, on the bench cases first, and prints what it answers and leaves.
#![tactic(auto)]

mod calls;
mod frames;
mod names;
mod on_records;
mod on_words;
mod plainly;
mod show;

fn main(rt: HostRuntime) {
    on_records::starred(&rt);
    on_words::starred(&rt);
    on_records::edges(&rt);
    on_words::at_every_side(&rt);
    on_words::refused_words(&rt);
    on_records::frames(&rt);
}
