// Runs the cases of standard input and prints a line or more for each. crates/vectors/stdin has the cases, and stdout what the published
// vectors, the real crate and document 01 give.
#![tactic(auto)]

mod alone;
mod bodies;
mod cases;
mod edits;
mod headers;
mod listings;
mod locations;
mod number;
mod rewrites;
mod statuses;
mod steps;
mod sums;
mod tables;
mod text;
mod views;
mod writes;

use std::io;

fn main(rt: HostRuntime) -> io::Result<()> {
    cases::run(&rt)
}
