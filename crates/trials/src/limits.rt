// Page K of 01, and the largest sheet and round files.
// Records and version numbers are those of the calls.
use instance::load;
use lines::{front, length, line, loading, store};
use round_file::{check, count, read};
use round_layout::MOST_ROUNDS;
use round_writer::{append, empty};
use std::io;
use types::{Header, Round, Written};

// Page K, a sheet of eight rows and one of nine. All numbers from 1 to m - 1 are group elements, so that nothing but the
// count of the rows is wrong with the second.
fn rows(rt: &impl Print) -> io::Result<()> {
    let header = Header {
        kind: 1,
        modulus: 4294967291,
        order: 4294967290,
        challenges: 2,
        rows: 8,
        columns: 8,
    };
    let mut sheet = [1u8; 344];
    let made = writer::encode(header, [[2u32; 8]; 8], [3u32; 8], &mut sheet);
    loading(rt, b"8 rows: ", front(&sheet, made.length))?;
    store(&mut sheet, 18, 9);
    loading(rt, b"9 rows: ", &sheet)
}

// Makes the largest sheet, with the largest modulus, and answers its length.
fn make_largest(sheet: &mut [u8]) -> usize {
    let header = Header {
        kind: 1,
        modulus: 4294967295,
        order: 4294901760,
        challenges: 2,
        rows: 8,
        columns: 8,
    };
    writer::encode(header, [[4294967293u32; 8]; 8], [4294967294u32; 8], sheet).length
}

// The last entry of the largest sheet, loaded back.
fn last_entry(rt: &impl Print, sheet: &[u8]) -> io::Result<()> {
    let entries = instance::entries(sheet);
    line(rt, b"its last entry: ", entries[7][7])
}

// The other values of the largest sheet, loaded back.
fn largest(rt: &impl Print, sheet: &[u8]) -> io::Result<()> {
    let loaded = load(sheet);
    length(rt, b"bytes of the largest sheet: ", sheet)?;
    line(rt, b"its refusal: ", loaded.refusal)?;
    line(rt, b"its modulus: ", loaded.header.modulus)?;
    line(rt, b"its last statement value: ", loaded.statement[7])
}

// Appends the round of this number to the bytes of the file that are in use.
fn append_one(sheet: &[u8], file: &mut [u8], used: usize, number: u32) -> Written {
    let round = Round {
        commitment: [4294967295u32; 8],
        challenge: number,
        response: [4294967295u32; 8],
    };
    append(sheet, file, used, round)
}

// Makes a file of no rounds in a version, appends 512 rounds, one by one, and answers how many bytes are in use.
fn append_all(sheet: &[u8], file: &mut [u8], version: u32) -> usize {
    let mut used = empty(version, file).length;
    for number in 0..MOST_ROUNDS {
        used = append_one(sheet, file, used, number).length;
    }
    used
}

// The largest round file, and page K: 512 rounds are read.
fn full(rt: &impl Print, sheet: &[u8], file: &[u8]) -> io::Result<()> {
    length(rt, b"bytes of the largest round file: ", file)?;
    line(rt, b"its count: ", count(sheet, file).count)?;
    line(
        rt,
        b"challenge of its last round: ",
        read(sheet, file, 511).round.challenge,
    )?;
    line(rt, b"512 rounds: ", check(sheet, file, 511))
}

// One round more is not appended, and page K: a file of 513 rounds is refused.
fn beyond(rt: &impl Print, sheet: &[u8], file: &mut [u8], used: usize) -> io::Result<()> {
    line(
        rt,
        b"one round more: ",
        append_one(sheet, file, used, MOST_ROUNDS).refusal,
    )?;
    store(file, 6, 1);
    line(rt, b"513 rounds: ", count(sheet, file).refusal)
}

// The trials of round files of a version, in a buffer that has room for 513 rounds and no more.
fn rounds(rt: &impl Print, sheet: &[u8], file: &mut [u8], version: u32) -> io::Result<()> {
    line(rt, b"version: ", version)?;
    let used = append_all(sheet, file, version);
    full(rt, sheet, front(file, used))?;
    beyond(rt, sheet, file, used)
}

// Page K, the largest sheet, and the largest round file of each version.
pub fn all(rt: &impl Print) -> io::Result<()> {
    rows(rt)?;
    let mut sheet = [0u8; 400];
    let length = make_largest(&mut sheet);
    largest(rt, front(&sheet, length))?;
    last_entry(rt, front(&sheet, length))?;
    let mut file = [0u8; 34891];
    rounds(rt, front(&sheet, length), &mut file, 1)?;
    let mut narrow = [0u8; 33865];
    rounds(rt, front(&sheet, length), &mut narrow, 2)
}
