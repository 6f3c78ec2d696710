// Where the first value that breaks a rule stands (02, card 1): its offset in the file that holds it, or the length found of a
// file whose length breaks the rule. A length is handed in, since a file may be longer than the bytes at hand.
// The bounds of fixed fields are clauses and no type, since a `Sheet` would ask more of callers.
#![tactic(auto)]

ghost use Rattle.std.specs.Prelude.{ℕ, ◌+◌, ◌*◌, ◌≤◌, ◌<◌, List, ◌↔◌, ◌≡◌, ◌≢◌, length};
ghost use Rattle.formats.specs.Load.{load_refusal};
ghost use Rattle.formats.specs.RoundFile.{challenge_width, record_length};
ghost use Rattle.formats.specs.Sheet.{header_of};
ghost use Rattle.instance.specs.Shaped.{Shaped};
ghost use Rattle.refusals.specs.Number.{number};
ghost use Rattle.reasons.specs.Reason.{file_spot, first_non_element, round_spot, sheet_spot};
ghost use Rattle.reasons.specs.declared.Spot.TheVariants.{At};

use fields::{has_mark, read_u8, read_u16, read_u32, read_words};
use instance::{FIXED_FIELDS, entry_count, header};
use modular::{first_non_coordinate, is_element};
use reasons::Spot;
use refusals::Refusal;
use round_layout::{MARK, MOST_ROUNDS, START, file_width, unknown_version};
use types::Header;

// The first of the n words of bytes from index start on that is no group element, or n where there is none.
fn first_non_element(h: Header, bytes: &[u8], start: usize, n: usize) -> usize
    requires modulus { 0 < h.modulus }
    requires within { start + 4 * n ≤ length bytes.now }
    ensures value { result ≡ first_non_element h bytes.now start n }
    ensures few { result ≤ n }
{
    for i in 0..n {
        if !is_element(h, read_u32(bytes, start + 4 * i)) {
            return i;
        }
    }
    n
}

// The offset of the first of the n words of bytes from index start on that is no group element.
fn element_spot(h: Header, bytes: &[u8], start: usize, n: usize) -> Spot
    requires modulus { 0 < h.modulus }
    requires within { start + 4 * n ≤ length bytes.now }
    ensures { result ≡ At (start + 4 * first_non_element h bytes.now start n) }
{
    Spot::At(start + 4 * first_non_element(h, bytes, start, n))
}

// The spot of rule 2: too short a header is told with the length found, another mark at 0.
fn start_spot(found: usize) -> Spot
    ensures { (s : List ℕ) → result ≡ sheet_spot s found 2 }
{
    if found < FIXED_FIELDS {
        return Spot::Length(found);
    }
    Spot::At(0)
}

// The spot of rule 7: rows outside 1 to 8, else the columns.
fn size_spot(sheet: &[u8]) -> Spot
    requires long { 20 ≤ length sheet.now }
    ensures { (found : ℕ) → result ≡ sheet_spot sheet.now found 7 }
{
    let rows = read_u8(sheet, 18);
    if rows < 1 {
        return Spot::At(18);
    }
    if rows > 8 {
        return Spot::At(18);
    }
    Spot::At(19)
}

// The spot of rule 10, which only a sheet of kind 1 breaks: the first entry that is no group element.
fn entry_spot(sheet: &[u8]) -> Spot
    requires modulus { 0 < (header_of sheet.now).modulus }
    requires shaped { Shaped sheet.now (header_of sheet.now) }
    requires kind { (header_of sheet.now).kind ≡ 1 }
    ensures { (found : ℕ) → result ≡ sheet_spot sheet.now found 10 }
{
    let h = header(sheet);
    element_spot(h, sheet, FIXED_FIELDS, (h.rows * h.columns) as usize)
}

// The spot of rule 11: the first value of the statement that is no group element.
fn statement_spot(sheet: &[u8]) -> Spot
    requires modulus { 0 < (header_of sheet.now).modulus }
    requires shaped { Shaped sheet.now (header_of sheet.now) }
    ensures { (found : ℕ) → result ≡ sheet_spot sheet.now found 11 }
{
    let h = header(sheet);
    let start = FIXED_FIELDS + 4 * entry_count(h);
    element_spot(h, sheet, start, h.rows as usize)
}

// The spot of a round file that is refused with 12 and has so many bytes in all: under 7 exactly where the bytes at hand are.
fn fault_spot(file: &[u8], found: usize) -> Spot
    ensures { (n : ℕ) → n ≢ 13 → (found < 7) ↔ (length file.now < 7) → result ≡ file_spot file.now found n }
{
    if file.len() < START {
        return Spot::Length(found);
    }
    if !has_mark(file, MARK) {
        return Spot::At(0);
    }
    if unknown_version(read_u16(file, 3)) {
        return Spot::At(3);
    }
    if read_u16(file, 5) > MOST_ROUNDS {
        return Spot::At(5);
    }
    Spot::Length(found)
}

// The spot of a sheet that is refused and has so many bytes in all.
pub fn sheet_spot(sheet: &[u8], found: usize, refusal: Refusal) -> Spot
    requires { number refusal ≡ load_refusal sheet.now }
    ensures { result ≡ sheet_spot sheet.now found (number refusal) }
{
    match refusal {
        Refusal::Start => start_spot(found),
        Refusal::Version => Spot::At(3),
        Refusal::Kind => Spot::At(5),
        Refusal::Modulus => Spot::At(6),
        Refusal::Order => Spot::At(10),
        Refusal::Size => size_spot(sheet),
        Refusal::Count => Spot::At(14),
        Refusal::Length => Spot::Length(found),
        Refusal::Entry => entry_spot(sheet),
        _ => statement_spot(sheet),
    }
}

// The spot of a round file that is refused with 12 or 13 and has so many bytes in all: under 7 exactly where the bytes at hand are. By
// number, since any number may be asked for.
pub fn file_spot(file: &[u8], found: usize, number: u32) -> Spot
    ensures { (found < 7) ↔ (length file.now < 7) → result ≡ file_spot file.now found number }
{
    if number == 13 {
        return Spot::At(5);
    }
    fault_spot(file, found)
}

// The spot of a round that is refused with the number, 14 to 16, and stands first in a file. By number, since Verdict::Refused has one.
pub fn round_spot(h: Header, file: &[u8], number: u32) -> Spot
    requires modulus { 0 < h.modulus }
    requires rows { h.rows ≤ 8 }
    requires columns { h.columns ≤ 8 }
    requires within { 7 + record_length (challenge_width file.now) h ≤ length file.now }
    ensures { result ≡ round_spot h file.now number }
{
    let rows = h.rows as usize;
    let columns = h.columns as usize;
    let challenge = START + 4 * rows;
    if number == 14 {
        return element_spot(h, file, START, rows);
    }
    if number == 15 {
        return Spot::At(challenge);
    }
    let width = file_width(file);
    let response = challenge + width;
    let slots = read_words(file, response, columns);
    let slot = first_non_coordinate(h, slots, columns);
    let offset = response + 4 * slot;
    Spot::At(offset)
}
