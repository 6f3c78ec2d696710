// Comparing the commitments of two rounds of one file (02, card 5), a word of 32 bits at a time.
// The bounds of fixed fields are clauses and no type, since a `Sheet` would ask more of callers.
// C reads the answers, so a refusal stands in them as a number.
#![tactic(auto)]

ghost use Rattle.std.specs.Prelude.{◌+◌, ◌*◌, ◌≤◌, ◌≡◌, not, length, drop};
ghost use Rattle.rules.specs.Call.{answer};
ghost use Rattle.sigma.specs.Comparison.{differ};
ghost use Rattle.formats.specs.SameCommitment.{comparing, same_commitment};
ghost use Rattle.round_words.specs.Results.{compared};

use fields::{read_u16, read_u32};
use formats::Compared;
use instance::Sheet;
use refusals::Refusal;
use round_layout::{file_width, record_start, test_file};
use types::Header;

// Whether the n words of a file from index a on are those from index b on, in all their bytes: by words and not as slices, since card 5
// asks for a word at a time.
fn words_agree(file: &[u8], a: usize, b: usize, n: usize) -> bool
    requires first { a + 4 * n ≤ length file.now }
    requires second { b + 4 * n ≤ length file.now }
    ensures { result ≡ not (differ (4 * n) (drop a file.now) (drop b file.now)) }
{
    (0..n).all(|k| read_u32(file, a + 4 * k) == read_u32(file, b + 4 * k))
}

// Whether rounds i and j of a file have the same commitment (refusals 12 and 13).
pub fn same_in(h: Header, file: &[u8], i: usize, j: usize) -> Result<bool, Refusal>
    requires rows { h.rows ≤ 8 }
    requires columns { h.columns ≤ 8 }
    ensures { compared result ≡ answer (comparing h file.now i j) }
{
    test_file(h, file)?;
    let count = read_u16(file, 5) as usize;
    if count <= i || count <= j {
        return Err(Refusal::Round);
    }
    let width = file_width(file);
    let a = record_start(h, width, i);
    let b = record_start(h, width, j);
    Ok(words_agree(file, a, b, h.rows as usize))
}

// Whether rounds i and j of a file have the same commitment.
fn same_of(sheet: &[u8], file: &[u8], i: usize, j: usize) -> Result<bool, Refusal>
    ensures { compared result ≡ same_commitment sheet.now file.now i j }
{
    let values = Sheet::load(sheet)?;
    same_in(values.header, file, i, j)
}

// Whether rounds i and j of a file have the same commitment, 1 or 0; 0 beside the number, 2 to 13, where they are refused.
pub fn same_commitment(sheet: &[u8], file: &[u8], i: usize, j: usize) -> Compared
    ensures { result ≡ same_commitment sheet.now file.now i j }
{
    match same_of(sheet, file, i, j) {
        Ok(same) => Compared {
            same: u32::from(same),
            refusal: 0,
        },
        Err(refusal) => Compared {
            same: 0,
            refusal: refusal.number(),
        },
    }
}
