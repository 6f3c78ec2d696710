// The text of the game (02, card 12): for the commitment of a round file's round 0, each challenge that has an accepting
// response, with the smallest one.
#![tactic(auto)]

ghost use Rattle.std.specs.Prelude.{ℕ, ◌≤◌, ◌<◌, false, List, [], ◌∷◌, ◌≡◌, IfOk, length, take};
ghost use Rattle.std.proofs.lemmas.List.Edits.{sets};
ghost use Rattle.rules.specs.Rule.{◌when◌, lowest};
ghost use Rattle.sigma.specs.Element.{some_non_element};
ghost use Rattle.sigma.specs.Round.{bad_commitment};
ghost use Rattle.formats.specs.Sheet.{instance_of};
ghost use Rattle.refusals.specs.Number.{refused_with};
ghost use Rattle.instance.specs.Values.{values_of};
ghost use Rattle.games.specs.Text.{bad_game, game_refusal, game_text, named_commitment};

use answer_lines::write_answers;
use files::{Kept, ROUNDS, SHEET};
use instance::Sheet;
use modular::some_non_element;
use refusals::Refusal;
use round_file::read_in;
use round_lines::write_line;
use solver::too_large;
use types::Header;

// As many bytes hold every text: a line for each of 65,536 challenges, of at most eleven bytes.
pub const LONGEST: usize = 720896;

// Tests the commitment of a round of a sheet that loads: its values are group elements (refusal 14), and then the sheet is not too
// large for the game (31). It reads fixed fields alone, so it takes a `Header` with its bounds, and not a whole `Sheet`.
fn test_game(h: Header, t: [u32; 8]) -> Result<(), Refusal>
    requires { (0 < h.modulus) × (h.rows ≤ 8) }
    ensures { refused_with result ≡ lowest ((14 when some_non_element h h.rows t) ∷ (31 when bad_game h) ∷ []) }
{
    if some_non_element(h, t, h.rows as usize) {
        return Err(Refusal::Commitment);
    }
    if too_large(h) {
        return Err(Refusal::Game);
    }
    Ok(())
}

// What the game is played on: the values of a sheet, and a commitment.
#[derive(Clone, Copy)]
struct Played {
    sheet: Sheet,
    commitment: [u32; 8],
}

// What the game is played on for a sheet and a round file: the values of the sheet, and the commitment of the file's round 0.
fn read_game(sheet: &[u8], file: &[u8]) -> Result<Played, Refusal>
    ensures number { refused_with result ≡ game_refusal sheet.now file.now }
    ensures values { IfOk result (λ played. values_of played.sheet ≡ instance_of sheet.now) }
    ensures named { IfOk result (λ played. played.commitment ≡ named_commitment sheet.now file.now) }
    ensures small { IfOk result (λ played. bad_game played.sheet.header ≡ false) }
    ensures elements { IfOk result (λ played. bad_commitment (values_of played.sheet) played.commitment ≡ false) }
{
    let sheet = Sheet::load(sheet)?;
    let round = read_in(sheet.header, file, 0)?;
    let commitment = round.commitment;
    test_game(sheet.header, commitment)?;
    Ok(Played { sheet, commitment })
}

// Stores the text of the game on a sheet and a round file at the start of text and answers its length; no byte behind it is
// changed. What is refused gives the one line `refused N`; else the text has a line for each challenge that has an accepting
// response, or is `none`.
pub fn game(sheet: &[u8], file: &[u8], text: &mut [u8; LONGEST]) -> usize
    ensures inside { result ≤ length text.new }
    ensures answer { result ≡ length (game_text sheet.now file.now) }
    ensures bytes { text.new ≡ sets text.old 0 (game_text sheet.now file.now) }
{
    match read_game(sheet, file) {
        Ok(played) => {
            let t = played.commitment;
            write_answers(text, &played.sheet, t)
        }
        Err(refusal) => write_line(text, b"refused", refusal.number()),
    }
}

// Stores the text of the game on two files and answers its length. Of the sheet its first 309 bytes were kept, of the round file
// its first 34,824, or all of a shorter one, and the text is that on the whole files, however long they are.
pub fn game_files(sheet: &Kept<SHEET>, rounds: &Kept<ROUNDS>, text: &mut [u8; LONGEST]) -> usize
    ensures inside { result ≤ length text.new }
    ensures room { (length sheet.now.bytes ≡ 309) × (length rounds.now.bytes ≡ 34824) }
    ensures whole { (s f : List ℕ) →
        take sheet.now.count sheet.now.bytes ≡ take (length sheet.now.bytes) s →
        take rounds.now.count rounds.now.bytes ≡ take (length rounds.now.bytes) f →
        (result ≡ length (game_text s f)) × (text.new ≡ sets text.old 0 (game_text s f)) }
{
    game(sheet.as_slice(), rounds.as_slice(), text)
}
