// Runs pages A to J of 01 through the calls on a sheet's bytes, then the steps of both sessions. Each line says what was
// tried, and then what was answered.
#![tactic(auto)]

mod pages; // pages.rt: pages A to J
mod steps; // steps.rt: which calls the states of the sessions allow

use lines::front;
use maker::make;
use pattern_writer::write_shipped;
use std::io;

// All of it, with the shipped pattern file, and on page A's sheet where a page has none of its own.
fn main(rt: HostRuntime) -> io::Result<()> {
    let mut file = [0u8; 64];
    let shipped = write_shipped(&mut file);
    let patterns = front(&file, shipped.length);
    let mut buffer = [0u8; 64];
    let made = make(patterns, 1, 23, 11, 11, &[2u32], &[13u32], &mut buffer);
    let sheet = front(&buffer, made.length);
    pages::all(&rt, patterns, sheet)?;
    steps::all(&rt, sheet)
}
