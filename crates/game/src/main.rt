// Prints the game's text (02, card 12) on the files `sheet.bin` and `rounds.bin` in the folder that it is run in: for the
// commitment of round 0, each challenge that has an accepting response, with the smallest one. A text that cannot be written
// whole is told of on standard error, and the exit status stays 0.
// A reader that has gone away is told nothing, and the exit status is 1.
#![tactic(auto)]

use files::{print_text, read_rounds, read_sheet};
use game_lines::{LONGEST, game_files};
use std::process::ExitCode;

// Alike to that of `reason`: what a program reads and hands on stands in its own main.
fn main(rt: HostRuntime) -> ExitCode {
    let mut text = [0u8; LONGEST];
    let sheet = read_sheet(&rt);
    let rounds = read_rounds(&rt);
    let length = game_files(&sheet, &rounds, &mut text);
    print_text(&rt, "game", &text[..length])
}
