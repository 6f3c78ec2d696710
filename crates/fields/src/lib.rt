// Fields of a slice of bytes, high byte first: a number of 8, 16 or 32 bits, a run of at most eight 32-bit numbers, and
// a mark of three bytes. Each function asks that its field lies within the slice.
// Arrays have eight places whatever n is: memory is fixed, and the structs that C reads have them so.
#![tactic(auto)]

ghost use Rattle.std.specs.Prelude.{◌+◌, ◌*◌, ◌≤◌, ◌<◌, ◌≡◌, length};
ghost use Rattle.std.proofs.lemmas.List.Edits.{sets};
ghost use Rattle.lists.specs.Places.{places, pad8};
ghost use Rattle.encoding.specs.Bytes.{number_at, words_at, bytes_of, bytes_of_each};
ghost use Rattle.fields.specs.Mark.{has_mark};

// The byte of s at index at, as a number.
pub fn read_u8(s: &[u8], at: usize) -> u32
    requires within { at + 1 ≤ length s.now }
    ensures value { result ≡ number_at 1 s.now at }
    ensures small { result < 256 }
{
    s[at] as u32
}

// The number in the two bytes of s from index at on.
pub fn read_u16(s: &[u8], at: usize) -> u32
    requires within { at + 2 ≤ length s.now }
    ensures value { result ≡ number_at 2 s.now at }
    ensures small { result < 65536 }
{
    u32::from(u16::from_be_bytes([s[at], s[at + 1]]))
}

// The number in the four bytes of s from index at on.
pub fn read_u32(s: &[u8], at: usize) -> u32
    requires within { at + 4 ≤ length s.now }
    ensures value { result ≡ number_at 4 s.now at }
{
    u32::from_be_bytes([s[at], s[at + 1], s[at + 2], s[at + 3]])
}

// The n numbers in the 4 n bytes of s from index at on, and 0 in the places beyond them.
pub fn read_words(s: &[u8], at: usize, n: usize) -> [u32; 8]
    requires count { n ≤ 8 }
    requires within { at + 4 * n ≤ length s.now }
    ensures value { result ≡ pad8 0 (words_at s.now at n) }
{
    let mut words = [0u32; 8];
    for i in 0..n {
        words[i] = read_u32(s, at + 4 * i);
    }
    words
}

// Stores the last byte of v in s at index at, and changes no other byte.
pub fn write_u8(s: &mut [u8], at: usize, v: u32)
    requires room { at + 1 ≤ length s.old }
    ensures stored { s.new ≡ sets s.old at (bytes_of 1 v) }
{
    s[at] = (v % 256) as u8;
}

// Stores the last two bytes of v in s from index at on, and changes no other byte.
pub fn write_u16(s: &mut [u8], at: usize, v: u32)
    requires room { at + 2 ≤ length s.old }
    ensures stored { s.new ≡ sets s.old at (bytes_of 2 v) }
{
    let low = (v % 65536) as u16;
    s[at..at + 2].copy_from_slice(&low.to_be_bytes());
}

// Stores the four bytes of v in s from index at on, and changes no other byte.
pub fn write_u32(s: &mut [u8], at: usize, v: u32)
    requires room { at + 4 ≤ length s.old }
    ensures stored { s.new ≡ sets s.old at (bytes_of 4 v) }
{
    s[at..at + 4].copy_from_slice(&v.to_be_bytes());
}

// Stores the first n of the words in s from index at on, four bytes each, and changes no other byte.
pub fn write_words(s: &mut [u8], at: usize, words: [u32; 8], n: usize)
    requires count { n ≤ 8 }
    requires room { at + 4 * n ≤ length s.old }
    ensures stored { s.new ≡ sets s.old at (bytes_of_each 4 (places n words)) }
{
    for k in 0..n {
        write_u32(s, at + 4 * k, words[k]);
    }
}

// Whether s begins with the mark.
pub fn has_mark(s: &[u8], mark: [u8; 3]) -> bool
    requires within { 3 ≤ length s.now }
    ensures value { result ≡ has_mark s.now mark }
{
    s.starts_with(&mark)
}

// Stores the mark at the start of s, and changes no other byte.
pub fn write_mark(s: &mut [u8], mark: [u8; 3])
    requires room { 3 ≤ length s.old }
    ensures stored { s.new ≡ sets s.old 0 mark }
{
    s[..3].copy_from_slice(&mark);
}
