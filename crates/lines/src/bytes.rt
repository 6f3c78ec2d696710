// A part of a buffer, a byte of it, and arrays of eight places.

// The first n bytes, or all where there are fewer.
pub fn front(bytes: &[u8], n: usize) -> &[u8] {
    &bytes[..n.min(bytes.len())]
}

// Stores a byte where there is room.
pub fn store(bytes: &mut [u8], at: usize, value: u8) {
    if let Some(byte) = bytes.get_mut(at) {
        *byte = value;
    }
}

// An array of three values; the other places hold 99, which no call may read.
pub fn three(a: u32, b: u32, c: u32) -> [u32; 8] {
    [a, b, c, 99, 99, 99, 99, 99]
}

// An array of one value.
pub fn one(value: u32) -> [u32; 8] {
    three(value, 99, 99)
}
