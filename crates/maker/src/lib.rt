// The sheet maker over pattern files (02, card 2): it puts the sheet at the start of the lent buffer and changes no byte after
// it; a refused call changes no byte.
// C reads the answers, so a refusal stands in them as a number.
#![tactic(auto)]

mod entries; // entries.rt: the entries that a pattern's digits stand for

ghost use Rattle.std.specs.Prelude.{ℕ, ◌≤◌, List, ◌≡◌};
ghost use Rattle.refusals.specs.Number.{written};
ghost use Rattle.patterns.specs.Maker.{make_from};
ghost use Rattle.maker.specs.Passes.{Passes};

use crate::entries::entries_of;
use fields::read_u8;
use pattern_file::{sizes_at, start_of, test_file};
use refusals::{Refusal, written};
use types::{Header, Written};
use writer::{eight_of, try_encode};

// Writes the root's sheet over a statement of one value, as the sheet maker does with any file that is not refused.
fn make_root(
    modulus: u32,
    order: u32,
    challenges: u32,
    values: &[u32],
    statement: &[u32],
    buffer: &mut [u8],
) -> Result<usize, Refusal>
    ensures answer { (f : List ℕ) → Passes f → written result ≡
        (make_from f 0 modulus order challenges values.now statement.now buffer.old).answer }
    ensures left { (f : List ℕ) → Passes f → buffer.new ≡
        (make_from f 0 modulus order challenges values.now statement.now buffer.old).buffer }
{
    if values.len() != 0 {
        return Err(Refusal::Pattern);
    }
    if statement.len() != 1 {
        return Err(Refusal::Pattern);
    }
    let h = Header {
        kind: 2,
        modulus,
        order,
        challenges,
        rows: 1,
        columns: 1,
    };
    let entries = [[0u32; 8]; 8];
    try_encode(h, entries, eight_of(statement), buffer)
}

// Writes the sheet of a file's pattern of this number, from 1, over the public values and the statement.
fn make_listed(
    patterns: &[u8],
    number: u32,
    modulus: u32,
    order: u32,
    challenges: u32,
    values: &[u32],
    statement: &[u32],
    buffer: &mut [u8],
) -> Result<usize, Refusal>
    requires file { Passes patterns.now }
    requires some { 1 ≤ number }
    ensures answer { written result ≡
        (make_from patterns.now number modulus order challenges values.now statement.now
        buffer.old).answer }
    ensures left { buffer.new ≡
        (make_from patterns.now number modulus order challenges values.now statement.now
        buffer.old).buffer }
{
    if number > read_u8(patterns, 5) {
        return Err(Refusal::Pattern);
    }
    let at = start_of(patterns, number as usize - 1);
    let p = sizes_at(patterns, at);
    if values.len() != p.values as usize {
        return Err(Refusal::Pattern);
    }
    if statement.len() != p.rows as usize {
        return Err(Refusal::Pattern);
    }
    let h = Header {
        kind: 1,
        modulus,
        order,
        challenges,
        rows: p.rows,
        columns: p.columns,
    };
    let entries = entries_of(patterns, at, values);
    try_encode(h, entries, eight_of(statement), buffer)
}

// Writes the sheet of the file's pattern of this number, or of the root for 0, and gives its length or why it is refused.
fn try_make(
    patterns: &[u8],
    number: u32,
    modulus: u32,
    order: u32,
    challenges: u32,
    values: &[u32],
    statement: &[u32],
    buffer: &mut [u8],
) -> Result<usize, Refusal>
    ensures answer { written result ≡
        (make_from patterns.now number modulus order challenges values.now statement.now
        buffer.old).answer }
    ensures left { buffer.new ≡
        (make_from patterns.now number modulus order challenges values.now statement.now
        buffer.old).buffer }
{
    test_file(patterns)?;
    match number {
        0 => make_root(modulus, order, challenges, values, statement, buffer),
        1..=32 => make_listed(
            patterns, number, modulus, order, challenges, values, statement, buffer,
        ),
        33..=u32::MAX => Err(Refusal::Pattern),
    }
}

// The sheet maker: writes the sheet of the file's pattern of this number, or of the root for 0, over the public values and the
// statement and answers its length, or the number that it is refused with, 23, 24, 1, 5, 6, 8, 10, 11 or 22. The whole file is
// tested, whichever pattern is asked for. Behind 1 it is the second writer: 4 and 7 cannot apply to a pattern, and its entries
// are group elements exactly if the public values are.
pub fn make(
    patterns: &[u8],
    number: u32,
    modulus: u32,
    order: u32,
    challenges: u32,
    values: &[u32],
    statement: &[u32],
    buffer: &mut [u8],
) -> Written
    ensures answer { result ≡
        (make_from patterns.now number modulus order challenges values.now statement.now
        buffer.old).answer }
    ensures left { buffer.new ≡
        (make_from patterns.now number modulus order challenges values.now statement.now
        buffer.old).buffer }
{
    written(try_make(
        patterns, number, modulus, order, challenges, values, statement, buffer,
    ))
}
