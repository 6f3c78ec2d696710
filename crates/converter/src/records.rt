// The records of a round file (02, card 7): whether the other version can hold them, and storing them over its width.
// These read fixed fields alone, so they take a `Header` with its bounds, and not a whole `Sheet`.
ghost use Rattle.std.specs.Prelude.{◌<◌, ◌≤◌, ◌≡◌, length};
ghost use Rattle.std.proofs.lemmas.List.Edits.{sets};
ghost use Rattle.formats.specs.Convert.{other_version, wide_record};
ghost use Rattle.formats.specs.Meaning.{IsRoundFile};
ghost use Rattle.formats.specs.RoundFile.{
  challenge_width,
  count_field,
  file_version,
  record_start,
  round_at,
};
ghost use Rattle.round_layout.specs.Width.{IsWidth};
ghost use Rattle.converter.specs.Records.{other_records, other_width};

use fields::read_u16;
use round_file::{challenge_at, round_at};
use round_layout::{file_width, record_start, width_of};
use round_writer::{wide_challenge, write_record};
use types::Header;

// The version that a file is converted to: 2 for a file of version 1, and 1 for one of version 2.
pub fn other_version(file: &[u8]) -> u32
    requires long { 7 ≤ length file.now }
    ensures { result ≡ other_version (file_version file.now) }
{
    if read_u16(file, 3) == 1 { 2 } else { 1 }
}

// The challenge of record k of a file whose challenges have width bytes.
fn stored_challenge(h: Header, file: &[u8], width: usize, k: usize) -> u32
    requires rows { h.rows ≤ 8 }
    requires columns { h.columns ≤ 8 }
    requires file { IsRoundFile h file.now }
    requires width { width ≡ challenge_width file.now }
    requires known { IsWidth width }
    requires number { k < count_field file.now }
    ensures { result ≡ (round_at width h file.now (record_start width h k)).challenge }
{
    let at = record_start(h, width, k);
    challenge_at(file, width, at + 4 * h.rows as usize)
}

// Whether some record of a file has a challenge that the other version cannot hold.
pub fn wide_record(h: Header, file: &[u8]) -> bool
    requires rows { h.rows ≤ 8 }
    requires columns { h.columns ≤ 8 }
    requires file { IsRoundFile h file.now }
    ensures { result ≡ wide_record h file.now }
{
    let version = other_version(file);
    let width = file_width(file);
    let count = read_u16(file, 5) as usize;
    (0..count).any(|k| wide_challenge(version, stored_challenge(h, file, width, k)))
}

// Stores the rounds of a file as records of the other version in buffer, behind the seven bytes before them, and changes no other
// byte.
pub fn write_records(h: Header, file: &[u8], buffer: &mut [u8])
    requires rows { h.rows ≤ 8 }
    requires columns { h.columns ≤ 8 }
    requires file { IsRoundFile h file.now }
    requires room { record_start (other_width file.now) h (count_field file.now) ≤ length buffer.old }
    ensures stored { buffer.new ≡ sets buffer.old 7
        (other_records h file.now (count_field file.now)) }
{
    let from = file_width(file);
    let to = width_of(other_version(file));
    let rounds = read_u16(file, 5) as usize;
    for k in 0..rounds {
        let round = round_at(h, from, file, record_start(h, from, k));
        let at = record_start(h, to, k);
        write_record(&mut buffer[at..], h, to, round);
    }
}
