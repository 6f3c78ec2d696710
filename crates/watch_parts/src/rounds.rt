// The rounds that a watch remembers: the nearest in which a nonce was used before, and one round more.
// The bounds of fixed fields are clauses and no type, since a `Sheet` would ask more of callers.
ghost use Rattle.std.specs.Prelude.{◌≡◌, List, ◌∷◌, ℕ, suc, ◌≤◌, ◌<◌, min, take, unwrap_or, IfSome};
ghost use Rattle.sigma.specs.Reads.{padded_round};
ghost use Rattle.watches.specs.Watch.{reuses, nearest};
ghost use Rattle.watch_parts.specs.Parts.{watch_with};

use comparison::{differ, first_places};
use types::{Header, Round};

// Whether another round has the same commitment as a round, in s places, and another challenge.
fn reuses(h: Header, round: Round, other: Round) -> bool
    requires { h.rows ≤ 8 }
    ensures { result ≡ reuses h round other }
{
    let t = other.commitment;
    let u = round.commitment;
    let rows = h.rows as usize;
    !differ(t, u, rows) && other.challenge != round.challenge
}

// The nearest of the first count remembered rounds that has the same commitment as a round and another challenge, from 0, if there is
// one.
// The count stands beside the rounds, since how long a field behind a reference is is not told (goal `returns-clause-value`).
pub fn nearest(h: Header, rounds: &[Round; 63], count: u32, round: Round) -> Option<usize>
    requires { (h.rows ≤ 8) × (count ≤ 63) }
    ensures value { (held : List ℕ) (size : ℕ)
        → unwrap_or result count ≡ nearest h (watch_with rounds.now held size count) round }
    ensures within { IfSome result (λ i. i < count) }
{
    let remembered = &rounds[..count as usize];
    remembered.iter().position(|other| reuses(h, round, *other))
}

// What is read of a round, in eight places each, with 0 in those that are not read.
pub fn padded(h: Header, round: Round) -> Round
    requires { (h.rows ≤ 8) × (h.columns ≤ 8) }
    ensures { result ≡ padded_round h round }
{
    let t = round.commitment;
    let r = round.response;
    Round {
        commitment: first_places(t, h.rows as usize),
        challenge: round.challenge,
        response: first_places(r, h.columns as usize),
    }
}

// The remembered rounds with a new one in front: each moves on by a place, and the last is forgotten.
pub fn behind(newest: Round, rounds: &[Round; 63]) -> [Round; 63]
    ensures { result ≡ take 63 (newest ∷ rounds.now) }
{
    let mut next = [newest; 63];
    next[1..].copy_from_slice(&rounds[..62]);
    next
}

// How many rounds are remembered after one more: 63 at most.
pub fn one_more(count: u32) -> u32
    ensures { result ≡ min 63 (suc count) }
{
    count.min(62) + 1
}
