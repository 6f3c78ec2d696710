// The bytes of a sheet, stored in a lent buffer part by part.
// The values come in three parts, as C hands them in, and need not be those of a sheet that loads.
ghost use Rattle.std.specs.Prelude.{◌+◌, ◌*◌, ◌≤◌, ◌≡◌, length};
ghost use Rattle.std.proofs.lemmas.List.Edits.{sets};
ghost use Rattle.sigma.specs.Instance.{instance_with};
ghost use Rattle.formats.specs.Encode.{header_bytes, sheet_of};
ghost use Rattle.formats.specs.Sheet.{entry_count, sheet_length};
ghost use Rattle.writer.specs.Parts.{entries_bytes};

use fields::{write_mark, write_u8, write_u16, write_u32, write_words};
use instance::{FIXED_FIELDS, MARK};
use types::Header;

// Stores the fixed fields of a sheet in the first 20 bytes of the buffer, and changes no other byte.
fn write_header(buffer: &mut [u8], h: Header)
    requires { 20 ≤ length buffer.old }
    ensures { buffer.new ≡ sets buffer.old 0 (header_bytes h) }
{
    write_mark(buffer, MARK);
    write_u16(buffer, 3, 1);
    write_u8(buffer, 5, h.kind);
    write_u32(buffer, 6, h.modulus);
    write_u32(buffer, 10, h.order);
    write_u32(buffer, 14, h.challenges);
    write_u8(buffer, 18, h.rows);
    write_u8(buffer, 19, h.columns);
}

// Stores the entries of a sheet in the buffer from byte 20 on, row by row in kind 1 and none in kind 2, changes no other
// byte and answers where they end.
fn write_entries(buffer: &mut [u8], h: Header, entries: [[u32; 8]; 8]) -> usize
    requires rows_bound { (h.rows ≤ 8) × (h.columns ≤ 8) }
    requires h_in_bounds { 20 + 4 * entry_count h ≤ length buffer.old }
    ensures value { result ≡ 20 + 4 * entry_count h }
    ensures buffer_after { buffer.new ≡ sets buffer.old 20 (entries_bytes h entries) }
{
    let mut at: usize = FIXED_FIELDS;
    if h.kind != 1 {
        return at;
    }
    let rows = h.rows as usize;
    let columns = h.columns as usize;
    for i in 0..rows {
        write_words(buffer, at, entries[i], columns);
        at += 4 * columns;
    }
    at
}

// Stores the sheet of these values at the start of the buffer, and changes no byte after it.
pub fn write_sheet(buffer: &mut [u8], h: Header, entries: [[u32; 8]; 8], statement: [u32; 8])
    requires rows_bound { (h.rows ≤ 8) × (h.columns ≤ 8) }
    requires h_in_bounds { sheet_length h ≤ length buffer.old }
    ensures { buffer.new ≡ sets buffer.old 0 (sheet_of (instance_with h entries statement)) }
{
    write_header(buffer, h);
    let end = write_entries(buffer, h, entries);
    let count = h.rows as usize;
    write_words(buffer, end, statement, count);
}
