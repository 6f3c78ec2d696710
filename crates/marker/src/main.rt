// Prints the marker's text (01, "The marker's lines"; 02, card 3) on the files `sheet.bin`, `rounds.bin` and `level.bin` in the
// folder that it is run in. A text that cannot be written whole is told of on standard error, and the exit status stays 0.
// A reader that has gone away is told nothing, and the exit status is 1.
#![tactic(auto)]

use files::{print_text, read_level, read_rounds, read_sheet};
use report::{LONGEST, mark_files};
use std::process::ExitCode;

fn main(rt: HostRuntime) -> ExitCode {
    let mut text = [0u8; LONGEST];
    let sheet = read_sheet(&rt);
    let rounds = read_rounds(&rt);
    let level = read_level(&rt);
    let length = mark_files(&sheet, &rounds, &level, &mut text);
    print_text(&rt, "marker", &text[..length])
}
