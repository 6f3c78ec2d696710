// The digits of a file's patterns: none is above the number of public values, and each value is named (02, card 2, refusal 24).
ghost use Rattle.std.specs.Prelude.{false, ◌≡◌, length};
ghost use Rattle.patterns.specs.PatternFile.{bad_digits, bad_pattern_file};
ghost use Rattle.pattern_file.specs.Naming.{digit_above, names, value_unnamed};

use crate::layout::{START, sizes_at};
use fields::read_u8;

// Whether one of the digits is above the number of public values.
fn digit_above(digits: &[u8], values: u32) -> bool
    ensures { result ≡ digit_above digits.now 0 (length digits.now) values }
{
    digits.iter().any(|d| u32::from(*d) > values)
}

// Whether one of the digits names the value of position v, from 1.
fn names(digits: &[u8], v: u32) -> bool
    ensures { result ≡ names digits.now 0 (length digits.now) v }
{
    digits.iter().any(|d| u32::from(*d) == v)
}

// Whether one of the public values is named by none of the digits.
fn value_unnamed(digits: &[u8], values: u32) -> bool
    ensures { result ≡ value_unnamed digits.now 0 (length digits.now) values }
{
    for v in 0..values {
        if !names(digits, v + 1) {
            return true;
        }
    }
    false
}

// Whether a file that 23 lets through is refused with 24, whichever pattern it is that has such a digit or value.
pub fn bad_digits(file: &[u8]) -> bool
    requires listed { bad_pattern_file file.now ≡ false }
    ensures { result ≡ bad_digits file.now }
{
    let count = read_u8(file, 5);
    let mut at: usize = START;
    for _ in 0..count {
        let p = sizes_at(file, at);
        let start = at + 3;
        let end = start + p.digits;
        let digits = &file[start..end];
        if digit_above(digits, p.values) {
            return true;
        }
        if value_unnamed(digits, p.values) {
            return true;
        }
        at = end;
    }
    false
}
