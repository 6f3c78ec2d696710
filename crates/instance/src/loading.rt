// The calls that load a sheet: its shape is tested first, then its group elements.
// C reads the answers, so a refusal stands in them as a number.
ghost use Rattle.std.specs.Prelude.{◌≡◌, IfOk};
ghost use Rattle.refusals.specs.Number.{number, refused_with};
ghost use Rattle.lists.specs.Places.{zeros8};
ghost use Rattle.formats.specs.Sheet.{instance_of};
ghost use Rattle.formats.specs.Load.{load_refusal, no_header, load, load_entries};
ghost use Rattle.instance.specs.Values.{values_of};

use crate::elements::{read_entries, read_statement, test_elements};
use crate::shape::test_shape;
use crate::sheet::Sheet;
use refusals::Refusal;
use types::{Header, Loaded};

impl Sheet {
    // Loads a sheet: its values, or why it is refused.
    pub fn load(sheet: &[u8]) -> Result<Sheet, Refusal>
        ensures number { refused_with result ≡ load_refusal sheet.now }
        ensures values { IfOk result (λ values. values_of values ≡ instance_of sheet.now) }
    {
        let header = test_shape(sheet)?;
        let entries = read_entries(sheet, header);
        let statement = read_statement(sheet, header);
        test_elements(header, entries, statement)?;
        Ok(Sheet {
            header,
            entries,
            statement,
        })
    }
}

// The answer to a refused sheet: the number and zeros.
fn refused(refusal: Refusal) -> Loaded
    ensures { result ≡ record { refusal = number refusal; header = no_header; statement = zeros8 } }
{
    Loaded {
        header: Header {
            kind: 0,
            modulus: 0,
            order: 0,
            challenges: 0,
            rows: 0,
            columns: 0,
        },
        statement: [0u32; 8],
        refusal: refusal.number(),
    }
}

// The fixed fields and the statement of a sheet, and zeros beside the number of one that is refused.
pub fn load(sheet: &[u8]) -> Loaded
    ensures { result ≡ load sheet.now }
{
    match Sheet::load(sheet) {
        Ok(values) => {
            let header = values.header;
            let statement = values.statement;
            Loaded {
                header,
                statement,
                refusal: 0,
            }
        }
        Err(refusal) => refused(refusal),
    }
}

// The entries of a sheet, and zeros for one that is refused; `load` of the same bytes gives the number.
pub fn entries(sheet: &[u8]) -> [[u32; 8]; 8]
    ensures { result ≡ load_entries sheet.now }
{
    match Sheet::load(sheet) {
        Ok(values) => values.entries,
        Err(_) => [[0u32; 8]; 8],
    }
}
