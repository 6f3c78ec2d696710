// Reading a file into a buffer, and counting it to its end.
ghost use Rattle.std.specs.Prelude.{◌≤◌, ◌<◌, ◌≡◌, length, take};

use std::io::Read;
use std::rt::Files;
use std::{fs, str};

// Reads into buffer until it is full or the input ends, and answers how many bytes were put at its start, 0 if a read fails.
fn read_all<F: Read>(file: &mut F, buffer: &mut [u8]) -> usize
    ensures count { result ≤ length buffer.new }
    ensures prefix { result ≡ length (take result buffer.new) }
{
    let mut done = 0;
    while done < buffer.len() {
        match file.read(&mut buffer[done..]) {
            Ok(0) => return done,
            Ok(more) => done += more,
            Err(_) => return 0,
        }
    }
    done
}

// The file of this name, opened for reading, if it can be.
fn open<R: Files>(rt: &R, path: &[u8]) -> Option<R::File> {
    let name = str::from_utf8(path).ok()?;
    fs::open(rt, name).ok()
}

// Reads the start of a file into buffer, and answers how many bytes were put there, 0 for a file that is missing or that
// cannot be read.
pub fn read_file<R: Files>(rt: &R, path: &[u8], buffer: &mut [u8]) -> usize
    ensures count { result ≤ length buffer.new }
    ensures prefix { result ≡ length (take result buffer.new) }
{
    match open(rt, path) {
        None => 0,
        Some(mut file) => read_all(&mut file, buffer),
    }
}

// What was read of a file: how many of its bytes were kept, its first ones, and how many it has in all.
#[derive(Clone, Copy)]
pub struct Held {
    pub kept: usize,
    pub length: usize,
}

// Reads on to the input's end, and answers how many bytes there are in all with those that were read before. A read that fails
// ends the input.
fn count_on<F: Read>(file: &mut F, done: usize) -> usize
    ensures { done ≤ result }
{
    let mut scratch = [0u8; 4096];
    let mut total = done;
    loop {
        match file.read(&mut scratch) {
            Ok(0) => return total,
            Ok(more) => match total.checked_add(more) {
                Some(sum) => total = sum,
                None => return total,
            },
            Err(_) => return total,
        }
    }
}

// Reads into buffer until it is full or the input ends, and on to the input's end without keeping what is read. Answers how
// many bytes were put at the buffer's start and how many there were in all, 0 and 0 if a read fails before the buffer is full.
fn read_on<F: Read>(file: &mut F, buffer: &mut [u8]) -> Held
    ensures kept { result.kept ≤ length buffer.new }
    ensures prefix { result.kept ≡ length (take result.kept buffer.new) }
    ensures length { result.kept ≤ result.length }
    ensures all { result.kept < length buffer.new → result.length ≡ result.kept }
{
    let kept = read_all(file, buffer);
    if kept < buffer.len() {
        return Held { kept, length: kept };
    }
    let length = count_on(file, kept);
    Held { kept, length }
}

// Reads the start of a file into buffer and counts the rest of it, however long it is. Answers how many bytes were put at the
// buffer's start and how many the file has in all, 0 and 0 for a file that is missing or that cannot be read.
pub fn read_counted<R: Files>(rt: &R, path: &[u8], buffer: &mut [u8]) -> Held
    ensures kept { result.kept ≤ length buffer.new }
    ensures prefix { result.kept ≡ length (take result.kept buffer.new) }
    ensures length { result.kept ≤ result.length }
    ensures all { result.kept < length buffer.new → result.length ≡ result.kept }
{
    match open(rt, path) {
        None => Held { kept: 0, length: 0 },
        Some(mut file) => read_on(&mut file, buffer),
    }
}
