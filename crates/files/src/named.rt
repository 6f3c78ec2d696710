// The files that the programs read. A file that is missing or that cannot be read counts as one of no bytes.
ghost use Rattle.std.specs.Prelude.{◌≤◌, ◌<◌, ◌≡◌, length};

use crate::kept::{Counted, Kept, count_kept, read_kept};
use std::rt::Files;

// How many bytes of a sheet are kept: one more than the longest sheet has, so that a text on what is kept of a longer one is that
// on the whole.
pub const SHEET: usize = 309;

// How many bytes of a round file are kept: one more than the longest round file has, so that a text on what is kept of a longer
// one is that on the whole.
pub const ROUNDS: usize = 34824;

// How many bytes of a level are kept: one more than a level has.
pub const LEVEL: usize = 2;

// Reads what is kept of `sheet.bin`.
pub fn read_sheet<R: Files>(rt: &R) -> Kept<SHEET>
    ensures count { result.count ≤ 309 }
    ensures room { length result.bytes ≡ 309 }
{
    read_kept(rt, b"sheet.bin")
}

// The same, and counts `sheet.bin` to its end.
pub fn count_sheet<R: Files>(rt: &R) -> Counted<SHEET>
    ensures count { result.kept.count ≤ 309 }
    ensures room { length result.kept.bytes ≡ 309 }
    ensures length { result.kept.count ≤ result.length }
    ensures all { result.kept.count < 309 → result.length ≡ result.kept.count }
{
    count_kept(rt, b"sheet.bin")
}

// Reads what is kept of `rounds.bin`.
pub fn read_rounds<R: Files>(rt: &R) -> Kept<ROUNDS>
    ensures count { result.count ≤ 34824 }
    ensures room { length result.bytes ≡ 34824 }
{
    read_kept(rt, b"rounds.bin")
}

// The same, and counts `rounds.bin` to its end.
pub fn count_rounds<R: Files>(rt: &R) -> Counted<ROUNDS>
    ensures count { result.kept.count ≤ 34824 }
    ensures room { length result.kept.bytes ≡ 34824 }
    ensures length { result.kept.count ≤ result.length }
    ensures all { result.kept.count < 34824 → result.length ≡ result.kept.count }
{
    count_kept(rt, b"rounds.bin")
}

// Reads what is kept of `level.bin`.
pub fn read_level<R: Files>(rt: &R) -> Kept<LEVEL>
    ensures count { result.count ≤ 2 }
    ensures room { length result.bytes ≡ 2 }
{
    read_kept(rt, b"level.bin")
}
