// The candidates for a response, in slot order, first slot leading: whether they are few enough, how many there are, and each of them.
// That a game is small is a clause and no type, since its one caller tests it once.
ghost use Rattle.std.specs.Prelude.{◌≡◌};
ghost use Rattle.lists.specs.Places.{pad8};
ghost use Rattle.games.specs.Text.{bad_game, candidate, candidates};
ghost use Rattle.solver.specs.Small.{Small};

use powers::power_exceeds;
use types::Header;

// Whether the game is too large (31): q^n above 4,096 in kind 1, m above 4,096 or more than one row in kind 2.
pub fn too_large(h: Header) -> bool
    ensures { result ≡ bad_game h }
{
    match h.kind {
        1 => power_exceeds(h.order, h.columns, 4096),
        2 => h.modulus > 4096 || h.rows > 1,
        _ => false,
    }
}

// How many candidates there are: q^n in kind 1, m in kind 2.
pub fn count_of(h: Header) -> u32
    requires { Small h }
    ensures { result ≡ candidates h }
{
    if h.kind != 1 {
        return h.modulus;
    }
    h.order.pow(h.columns)
}

// Candidate k, and zeros beyond its slots: in kind 1 the digits of k to base q, the first with the greatest weight, in kind 2 k
// itself.
pub fn response_at(h: Header, k: u32) -> [u32; 8]
    requires { Small h }
    ensures { result ≡ pad8 0 (candidate h k) }
{
    if h.kind != 1 {
        return [k, 0, 0, 0, 0, 0, 0, 0];
    }
    let columns = h.columns as usize;
    let mut weight = count_of(h);
    let mut rest = k;
    let mut slots = [0u32; 8];
    for j in 0..columns {
        weight = weight / h.order;
        slots[j] = rest / weight;
        rest = rest % weight;
    }
    slots
}
