// Text in a slice of bytes: words and decimal numbers. Each function stores the bytes that have room from an index on, leaves out
// the others, changes no other byte and answers the index after what it stored.
#![tactic(auto)]

ghost use Rattle.std.specs.Prelude.{◌+◌, ◌≤◌, ◌<◌, [], ◌∷◌, ◌++◌, length};
ghost use Rattle.encoding.specs.Text.{ascii, decimal};
ghost use Rattle.encoding.specs.Placed.{Fitted, Placed};

// Stores a word that has room.
fn store_word(s: &mut [u8], at: usize, word: &[u8]) -> usize
    requires room { at + length word.now ≤ length s.old }
    ensures { Placed s.old at word.now s.new result }
{
    let end = at + word.len();
    s[at..end].copy_from_slice(word);
    end
}

// Stores the part that has room of a word that has not.
fn write_part(s: &mut [u8], at: usize, word: &[u8]) -> usize
    requires long { length s.old < at + length word.now }
    ensures { Fitted s.old at word.now s.new result }
{
    if s.len() <= at {
        return at;
    }
    let room = s.len() - at;
    store_word(s, at, &word[..room])
}

// Stores a word.
pub fn write_word(s: &mut [u8], at: usize, word: &[u8]) -> usize
    ensures { Fitted s.old at word.now s.new result }
{
    if s.len() < word.len() {
        return write_part(s, at, word);
    }
    if s.len() - word.len() < at {
        return write_part(s, at, word);
    }
    store_word(s, at, word)
}

// Stores the one digit of a number below 10.
fn write_digit(s: &mut [u8], at: usize, digit: u64) -> usize
    requires digit { digit < 10 }
    ensures { Fitted s.old at ((48 + digit) ∷ []) s.new result }
{
    if at >= s.len() {
        return at;
    }
    s[at] = (48 + digit) as u8;
    at + 1
}

// Stores a number in decimal: the digits of its tenth, and then its last digit.
pub fn write_decimal(s: &mut [u8], at: usize, number: u64) -> usize
    ensures { Fitted s.old at (decimal number) s.new result }
{
    if number < 10 {
        return write_digit(s, at, number);
    }
    let last = write_decimal(s, at, number / 10);
    write_digit(s, last, number % 10)
}

// Stores a word, a space and a number in decimal.
pub fn write_numbered(s: &mut [u8], at: usize, word: &[u8], number: u64) -> usize
    ensures { Fitted s.old at (word.now ++ ascii " " ++ decimal number) s.new result }
{
    let space = write_word(s, at, word);
    let digits = write_word(s, space, b" ");
    write_decimal(s, digits, number)
}
