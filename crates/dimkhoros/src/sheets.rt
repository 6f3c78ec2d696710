// The calls on sheets.
ghost use Rattle.std.specs.Prelude.{◌≡◌};
ghost use Rattle.formats.specs.Encode.{encode};
ghost use Rattle.formats.specs.Load.{load};
ghost use Rattle.linear_forms.specs.Linear.{make_linear};
ghost use Rattle.linear_forms.specs.LinearPlan.{linear_plan};
ghost use Rattle.patterns.specs.Maker.{make_from};
ghost use Rattle.patterns.specs.Table.{write_shipped};
ghost use Rattle.tables.specs.Flat.{flat_instance, flat_unless_refused};

use types::{Header, Loaded, Written};

// Loads a sheet: its fixed fields and its statement, and zeros beside the number of one that is refused.
#[unsafe(no_mangle)]
pub extern "C" fn dimkhoros_load(sheet: &[u8]) -> Loaded
    ensures { result ≡ load sheet.now }
{
    instance::load(sheet)
}

// Puts a sheet's entries into entries, row by row, and answers 0. The number of a sheet that is refused, 2 to 11, is the answer,
// and entries keeps its numbers.
#[unsafe(no_mangle)]
pub extern "C" fn dimkhoros_entries(sheet: &[u8], entries: &mut [u32; 64]) -> u32
    ensures answer { result ≡ (load sheet.now).refusal }
    ensures numbers { entries.new ≡ flat_unless_refused sheet.now entries.old }
{
    tables::store_entries(sheet, entries)
}

// The second writer: puts the sheet of these values at the start of buffer and answers its length, or the number that they
// are refused with, 4 to 8, 10, 11 or 22. The entries stand row by row, as `dimkhoros_entries` gives them, and none is read
// in kind 2. No byte after the sheet is changed, and a refused call changes none.
#[unsafe(no_mangle)]
pub extern "C" fn dimkhoros_encode(
    header: Header,
    entries: &[u32; 64],
    statement: &[u32; 8],
    buffer: &mut [u8],
) -> Written
    ensures answer { result ≡
        (encode (flat_instance header entries.now statement.now) buffer.old).answer }
    ensures bytes { buffer.new ≡
        (encode (flat_instance header entries.now statement.now) buffer.old).buffer }
{
    writer::encode(header, tables::square(entries), *statement, buffer)
}

// The sheet maker: puts the sheet of the pattern of this number in a pattern file, or of the root for 0, over the public values
// and the statement, at the start of buffer and answers its length, or the number that it is refused with, 23, 24, 1, 5, 6, 8, 10,
// 11 or 22. The whole file is tested, whichever pattern is asked for. No byte after the sheet is changed, and a refused call
// changes none.
#[unsafe(no_mangle)]
pub extern "C" fn dimkhoros_from_pattern(
    patterns: &[u8],
    number: u32,
    modulus: u32,
    order: u32,
    challenges: u32,
    values: &[u32],
    statement: &[u32],
    buffer: &mut [u8],
) -> Written
    ensures answer { result ≡
        (make_from patterns.now number modulus order challenges values.now statement.now
        buffer.old).answer }
    ensures bytes { buffer.new ≡
        (make_from patterns.now number modulus order challenges values.now statement.now
        buffer.old).buffer }
{
    maker::make(
        patterns, number, modulus, order, challenges, values, statement, buffer,
    )
}

// The maker of sheets from linear forms (02, card 10): puts the sheet of kind 1 whose entry (i, j) is the product over the 1 to 8
// generators of generator^coefficient mod m at the start of buffer and answers its length, or the number that it is refused with, 5,
// 6, 7, 8, 29, 30, 10, 11 or 22. The coefficients stand by row, then generator, then column. No byte after the sheet is changed, and
// a refused call changes none.
#[unsafe(no_mangle)]
pub extern "C" fn dimkhoros_linear(
    modulus: u32,
    order: u32,
    challenges: u32,
    rows: u32,
    columns: u32,
    generators: &[u32],
    coefficients: &[u32],
    statement: &[u32],
    buffer: &mut [u8],
) -> Written
    ensures answer { result ≡
        (make_linear (linear_plan modulus order challenges rows columns generators.now coefficients.now
        statement.now) buffer.old).answer }
    ensures bytes { buffer.new ≡
        (make_linear (linear_plan modulus order challenges rows columns generators.now coefficients.now
        statement.now) buffer.old).buffer }
{
    linear_maker::make(
        modulus,
        order,
        challenges,
        rows,
        columns,
        generators,
        coefficients,
        statement,
        buffer,
    )
}

// Puts the pattern file of 01's first five patterns at the start of buffer and answers its length, 34, or 22 for a shorter buffer.
// No byte after the file is changed, and a refused call changes none.
#[unsafe(no_mangle)]
pub extern "C" fn dimkhoros_patterns(buffer: &mut [u8]) -> Written
    ensures answer { result ≡ (write_shipped buffer.old).answer }
    ensures bytes { buffer.new ≡ (write_shipped buffer.old).buffer }
{
    pattern_writer::write_shipped(buffer)
}
