// The shape of a sheet: its mark, its version, its fixed fields and its length (01, "Turned back", 2 to 9).
// The bounds of fixed fields are clauses and no type, since a `Sheet` would ask more of callers.
ghost use Rattle.std.specs.Prelude.{◌≤◌, ◌≡◌, length, IfOk};
ghost use Rattle.refusals.specs.Number.{refused_with};
ghost use Rattle.rules.specs.Rule.{lowest};
ghost use Rattle.sigma.specs.Admission.{bad_kind, bad_size, bad_count, header_rules};
ghost use Rattle.formats.specs.Sheet.{header_of, entry_count, sheet_length};
ghost use Rattle.formats.specs.Load.{shape_rules};

use fields::{has_mark, read_u8, read_u16, read_u32};
use primes::first_divisor;
use refusals::Refusal;
use types::Header;

// The three bytes that a sheet begins with.
pub const MARK: [u8; 3] = *b"HOM";

// How many bytes the fixed fields of a sheet have, the mark and the version with them.
pub const FIXED_FIELDS: usize = 20;

// How large a challenge count can be.
pub const MOST_CHALLENGES: u32 = 65536;

// The fixed fields of a sheet that has at least 20 bytes.
pub fn header(sheet: &[u8]) -> Header
    requires { 20 ≤ length sheet.now }
    ensures { result ≡ header_of sheet.now }
{
    Header {
        kind: read_u8(sheet, 5),
        modulus: read_u32(sheet, 6),
        order: read_u32(sheet, 10),
        challenges: read_u32(sheet, 14),
        rows: read_u8(sheet, 18),
        columns: read_u8(sheet, 19),
    }
}

// Whether the kind is neither 1 nor 2.
fn bad_kind(h: Header) -> bool
    ensures { result ≡ bad_kind h }
{
    if h.kind == 1 {
        return false;
    }
    h.kind != 2
}

// Whether rows or columns lie outside 1 to 8, or differ in kind 2.
fn bad_size(h: Header) -> bool
    ensures { result ≡ bad_size h }
{
    if h.rows < 1 {
        return true;
    }
    if h.rows > 8 {
        return true;
    }
    if h.columns < 1 {
        return true;
    }
    if h.columns > 8 {
        return true;
    }
    if h.kind == 2 {
        return h.rows != h.columns;
    }
    false
}

// Whether the challenge count is below 2 or above 65,536, or some d with 2 ≤ d < K divides ℓ.
fn bad_count(h: Header) -> bool
    ensures { result ≡ bad_count h }
{
    if h.challenges < 2 {
        return true;
    }
    if h.challenges > MOST_CHALLENGES {
        return true;
    }
    first_divisor(h.order, h.challenges).is_some()
}

// Tests fixed fields, which are refused with 4 to 8.
pub fn test_header(h: Header) -> Result<(), Refusal>
    ensures { refused_with result ≡ lowest (header_rules h) }
{
    if bad_kind(h) {
        return Err(Refusal::Kind);
    }
    if h.modulus < 3 {
        return Err(Refusal::Modulus);
    }
    if h.order < 2 {
        return Err(Refusal::Order);
    }
    if bad_size(h) {
        return Err(Refusal::Size);
    }
    if bad_count(h) {
        return Err(Refusal::Count);
    }
    Ok(())
}

// How many entries a sheet has: rows times columns in kind 1, none in kind 2.
pub fn entry_count(h: Header) -> usize
    requires rows { h.rows ≤ 8 }
    requires columns { h.columns ≤ 8 }
    ensures value { result ≡ entry_count h }
    ensures most { result ≤ 64 }
{
    if h.kind == 1 {
        return (h.rows * h.columns) as usize;
    }
    0
}

// The length that fixed fields of at most eight rows and columns give a sheet.
pub fn sheet_length(h: Header) -> usize
    requires rows { h.rows ≤ 8 }
    requires columns { h.columns ≤ 8 }
    ensures value { result ≡ sheet_length h }
    ensures most { result ≤ 308 }
{
    FIXED_FIELDS + 4 * entry_count(h) + 4 * h.rows as usize
}

// Tests a sheet's shape, which is refused with 2 to 9, and reads its fixed fields.
pub fn test_shape(sheet: &[u8]) -> Result<Header, Refusal>
    ensures number { refused_with result ≡ lowest (shape_rules sheet.now) }
    ensures fields { IfOk result (λ h. h ≡ header_of sheet.now) }
{
    if sheet.len() < FIXED_FIELDS {
        return Err(Refusal::Start);
    }
    if !has_mark(sheet, MARK) {
        return Err(Refusal::Start);
    }
    if read_u16(sheet, 3) != 1 {
        return Err(Refusal::Version);
    }
    let h = header(sheet);
    test_header(h)?;
    if sheet.len() != sheet_length(h) {
        return Err(Refusal::Length);
    }
    Ok(h)
}
