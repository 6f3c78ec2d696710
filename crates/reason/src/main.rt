// Prints the reason (02, card 1) on the files `sheet.bin` and `rounds.bin` in the folder that it is run in: one line on the
// sheet, the file or its round 0. A line that cannot be written whole is told of on standard error, and the exit status stays 0.
// A reader that has gone away is told nothing, and the exit status is 1.
#![tactic(auto)]

use diagnosis::{LONGEST, reason_files};
use files::{count_rounds, count_sheet, print_text};
use std::process::ExitCode;

// Alike to that of `game`: what a program reads and hands on stands in its own main.
fn main(rt: HostRuntime) -> ExitCode {
    let mut text = [0u8; LONGEST];
    let sheet = count_sheet(&rt);
    let rounds = count_rounds(&rt);
    let length = reason_files(&sheet, &rounds, &mut text);
    print_text(&rt, "reason", &text[..length])
}
