// The game's text.
ghost use Rattle.std.specs.Prelude.{◌≡◌, length};
ghost use Rattle.std.proofs.lemmas.List.Edits.{sets};
ghost use Rattle.games.specs.Text.{game_text};

use game_lines::LONGEST;

// Stores the game's text on a sheet and a round file at the start of text and answers its length; no byte behind it is changed.
// What is refused gives the one line `refused N`; else the text has, for the commitment of round 0, a line for each challenge
// that has an accepting response, the challenge and the smallest one in slot order, or is the one line `none`.
#[unsafe(no_mangle)]
pub extern "C" fn dimkhoros_game(sheet: &[u8], file: &[u8], text: &mut [u8; LONGEST]) -> usize
    ensures answer { result ≡ length (game_text sheet.now file.now) }
    ensures bytes { text.new ≡ sets text.old 0 (game_text sheet.now file.now) }
{
    game_lines::game(sheet, file, text)
}
