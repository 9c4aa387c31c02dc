// Replays answers of the real crate: each line of standard input is a case and the Rust's answer to it, and the program says how many of its
// own answers are the same. compare/make_replay makes the list; compare/check/src/replay.rs describes its lines.
#![tactic(auto)]

mod answer;
mod batches;
mod bodies;
mod cases;
mod items;
mod locations;
mod number;

use std::io;

fn main(rt: HostRuntime) -> io::Result<()> {
    cases::run(&rt)
}
