// Runs page K of 01, the largest sheet and the largest round file of each version. Each line says what was tried, and then what was answered.
#![tactic(auto)]

use std::io;

mod limits; // limits.rt: page K, and the largest sheet and round files

// All of it.
fn main(rt: HostRuntime) -> io::Result<()> {
    limits::all(&rt)
}
