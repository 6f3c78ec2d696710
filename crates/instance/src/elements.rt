// The group elements of a sheet: its entries, row by row, and its statement (01, "Turned back", 10 and 11).
// The bounds of fixed fields are clauses and no type, since a `Sheet` would ask more of callers.
ghost use Rattle.std.specs.Prelude.{◌+◌, ◌*◌, ◌≤◌, ◌<◌, ◌≡◌, length};
ghost use Rattle.refusals.specs.Number.{refused_with};
ghost use Rattle.rules.specs.Rule.{lowest};
ghost use Rattle.sigma.specs.Admission.{element_rules};
ghost use Rattle.sigma.specs.Instance.{instance_with};
ghost use Rattle.formats.specs.Sheet.{entries_of, statement_of};
ghost use Rattle.instance.specs.Shaped.{Shaped};
ghost use Rattle.instance.specs.Rows.{rows_at, some_bad_entry};

use crate::shape::{FIXED_FIELDS, entry_count};
use fields::read_words;
use modular::some_non_element;
use refusals::Refusal;
use types::Header;

// The first n rows of a sheet's entries, each of so many columns, and 0 in the places beyond them.
fn read_rows(sheet: &[u8], columns: usize, n: usize) -> [[u32; 8]; 8]
    requires few { (columns ≤ 8) × (n ≤ 8) }
    requires within { 20 + 4 * columns * n ≤ length sheet.now }
    ensures { result ≡ rows_at sheet.now columns n }
{
    let mut rows = [[0u32; 8]; 8];
    for i in 0..n {
        let row = read_words(sheet, FIXED_FIELDS + 4 * columns * i, columns);
        rows[i] = row;
    }
    rows
}

// The entries of a sheet that has the shape of one, all 0 in kind 2.
pub fn read_entries(sheet: &[u8], h: Header) -> [[u32; 8]; 8]
    requires { Shaped sheet.now h }
    ensures { result ≡ entries_of sheet.now h }
{
    if h.kind == 1 {
        return read_rows(sheet, h.columns as usize, h.rows as usize);
    }
    [[0u32; 8]; 8]
}

// The statement of a sheet that has the shape of one.
pub fn read_statement(sheet: &[u8], h: Header) -> [u32; 8]
    requires { Shaped sheet.now h }
    ensures { result ≡ statement_of sheet.now h }
{
    read_words(sheet, FIXED_FIELDS + 4 * entry_count(h), h.rows as usize)
}

// Whether some entry is no group element; in kind 2 none is read.
fn some_bad_entry(h: Header, entries: [[u32; 8]; 8]) -> bool
    requires modulus { 0 < h.modulus }
    requires rows { h.rows ≤ 8 }
    requires columns { h.columns ≤ 8 }
    ensures { result ≡ some_bad_entry h entries }
{
    if h.kind != 1 {
        return false;
    }
    let rows = h.rows as usize;
    let columns = h.columns as usize;
    for i in 0..rows {
        let row = entries[i];
        if some_non_element(h, row, columns) {
            return true;
        }
    }
    false
}

// Tests entries and a statement, which are refused with 10 or 11.
pub fn test_elements(h: Header, entries: [[u32; 8]; 8], statement: [u32; 8]) -> Result<(), Refusal>
    requires modulus { 0 < h.modulus }
    requires rows { h.rows ≤ 8 }
    requires columns { h.columns ≤ 8 }
    ensures { refused_with result ≡ lowest (element_rules (instance_with h entries statement)) }
{
    if some_bad_entry(h, entries) {
        return Err(Refusal::Entry);
    }
    if some_non_element(h, statement, h.rows as usize) {
        return Err(Refusal::Statement);
    }
    Ok(())
}
