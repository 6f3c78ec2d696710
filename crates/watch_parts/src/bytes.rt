// The sheet's bytes that a watch holds. A sheet that loads has 308 at most.
// Bytes are an array and their number beside it, as C reads them in a `Watch`.
ghost use Rattle.std.specs.Prelude.{◌≡◌, ◌++◌, ◌-◌, ◌≤◌, length, replicate};
ghost use Rattle.watches.specs.Watch.{is_watched, zero_round};
ghost use Rattle.watch_parts.specs.Parts.{watch_with};

use types::Round;
use watches::Watch;

// A sheet's bytes, and zeros beyond them.
pub fn held_bytes(sheet: &[u8]) -> [u8; 308]
    requires { length sheet.now ≤ 308 }
    ensures { result ≡ sheet.now ++ replicate (308 - length sheet.now) 0 }
{
    let mut held = [0u8; 308];
    held[..sheet.len()].copy_from_slice(sheet);
    held
}

// A watch of so many bytes that remembers nothing.
pub fn fresh(held: [u8; 308], size: u32) -> Watch
    ensures { result ≡ watch_with (replicate 63 zero_round) held size 0 }
{
    let none = Round {
        commitment: [0u32; 8],
        challenge: 0,
        response: [0u32; 8],
    };
    let rounds = [none; 63];
    Watch {
        rounds,
        sheet: held,
        length: size,
        count: 0,
    }
}

// Whether a sheet's bytes are those that a watch holds: as many, and the same at each place.
pub fn is_watched(watch: &Watch, sheet: &[u8]) -> bool
    requires { length sheet.now ≤ 308 }
    ensures { result ≡ is_watched watch.now sheet.now }
{
    let size = watch.length as usize;
    size == sheet.len() && sheet == &watch.sheet[..size]
}
