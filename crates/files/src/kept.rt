// What is kept of a file: an array of its first bytes, how many they are, and how many the file has in all.
ghost use Rattle.std.specs.Prelude.{◌≤◌, ◌<◌, ◌≡◌, length, take};

use crate::reading::{read_counted, read_file};
use std::rt::Files;

// The first N bytes of a file, or all of a shorter one: so many bytes at the start of an array, since there is no heap.
#[derive(Clone, Copy)]
pub struct Kept<const N: usize> {
    bytes: [u8; N],
    count: usize,
    ghost within: { count ≤ N },
}

impl<const N: usize> Kept<N> {
    // The file's bytes that were kept.
    pub fn as_slice(&self) -> &[u8]
        ensures room { length self.now.bytes ≡ N }
        ensures slice { result.now ≡ take self.now.count self.now.bytes }
    {
        &self.bytes[..self.count]
    }
}

// The same, and how many bytes the file has in all.
#[derive(Clone, Copy)]
pub struct Counted<const N: usize> {
    kept: Kept<N>,
    length: usize,
    ghost more: { kept.count ≤ length },
    ghost all: { kept.count < N → length ≡ kept.count },
}

impl<const N: usize> Counted<N> {
    // The file's bytes that were kept.
    pub fn as_slice(&self) -> &[u8]
        ensures room { length self.now.kept.bytes ≡ N }
        ensures slice { result.now ≡ take self.now.kept.count self.now.kept.bytes }
    {
        self.kept.as_slice()
    }

    // How many bytes the file has in all.
    pub fn length(&self) -> usize
        ensures { result ≡ self.now.length }
    {
        self.length
    }
}

// Reads what is kept of a file. One that is missing or that cannot be read counts as one of no bytes.
pub fn read_kept<const N: usize, R: Files>(rt: &R, path: &[u8]) -> Kept<N>
    ensures room { length result.bytes ≡ N }
{
    let mut bytes = [0u8; N];
    let count = read_file(rt, path, &mut bytes);
    Kept { bytes, count }
}

// The same, and counts the file to its end.
pub fn count_kept<const N: usize, R: Files>(rt: &R, path: &[u8]) -> Counted<N>
    ensures room { length result.kept.bytes ≡ N }
{
    let mut bytes = [0u8; N];
    let held = read_counted(rt, path, &mut bytes);
    let count = held.kept;
    Counted {
        kept: Kept { bytes, count },
        length: held.length,
    }
}
