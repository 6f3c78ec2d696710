// The marker's text.
ghost use Rattle.std.specs.Prelude.{◌≡◌, length};
ghost use Rattle.std.proofs.lemmas.List.Edits.{sets};
ghost use Rattle.runs.specs.Marker.{marker_text};

use report::LONGEST;

// Stores the marker's text on a sheet, a round file and a level at the start of text and answers its length; no byte behind it
// is changed. A refused sheet gives the one line `sheet N`, a refused file `file N` and a refused level `level N`; else the text
// has the count, a line for each round, and `pass` or `fail`.
#[unsafe(no_mangle)]
pub extern "C" fn dimkhoros_mark(
    sheet: &[u8],
    file: &[u8],
    level: &[u8],
    text: &mut [u8; LONGEST],
) -> usize
    ensures answer { result ≡ length (marker_text sheet.now file.now level.now) }
    ensures bytes { text.new
        ≡ sets text.old 0 (marker_text sheet.now file.now level.now) }
{
    report::mark(sheet, file, level, text)
}
