// The lines that are made. What a kind does not use is 0.
// That the modulus is above 0 is a clause and no type: C hands in a `Base` of any numbers.
ghost use Rattle.std.specs.Prelude.{◌≡◌, List, ◌<◌};
ghost use Rattle.lists.specs.Places.{pad8};
ghost use Rattle.ledgers.specs.Write.{
  Opening,
  ledger_of,
  line_of,
  made_line,
  made_product,
  opening_at,
  opening_of,
  product_witness,
  write_ledger,
};
ghost use Rattle.ledger_writer.specs.Parts.{Keeps, opening, plain_line};

use crate::opened::{Opened, commit, line_opening};
use image::{image, response};
use ledger_lines::{Kind, product_entries, product_header};
use ledgers::{Base, Entries, Entry, Line};
use modular::{mul_mod, sub_mod};

// The witness of a product: the first factor's value and blinding number, and the product's own blinding number less the first value
// times the second factor's, mod q.
fn witness(q: u32, one: Opened, two: Opened, own: u32) -> [u32; 8]
    requires { own < q }
    ensures { result ≡ pad8 0 (product_witness q (opening one) (opening two) own) }
{
    let rest = sub_mod(own, mul_mod(one.value, two.blinding, q), q);
    [one.value, one.blinding, rest, 0, 0, 0, 0, 0]
}

// A product's line, with the honest round of the entry's nonce and challenge, of what the two factors and the product open to.
fn product_line(base: Base, one: Opened, two: Opened, own: Opened, entry: &Entry) -> Line
    requires { (0 < base.modulus) × (entry.now.blinding < base.order) }
    ensures { (above : List Opening) → opening_at above entry.now.first ≡ opening one → opening_at above entry.now.second ≡ opening two
        → result ≡ made_product base above (opening own) entry.now }
{
    let h = product_header(base);
    let slots = entry.nonce;
    let nonce = [slots[0], slots[1], slots[2], 0, 0, 0, 0, 0];
    let t = image(h, product_entries(base, commit(base, two)), nonce);
    let x = witness(base.order, one, two, entry.blinding);
    let r = response(h, nonce, entry.challenge, x);
    Line {
        kind: Kind::Product as u32,
        first: entry.first,
        second: entry.second,
        commitment: commit(base, own),
        t: [t[0], t[1]],
        challenge: entry.challenge,
        response: [r[0], r[1], r[2]],
    }
}

// A line of a kind, two lines and a commitment, and zeros. The kind is a number: a line of zeros has 0, which is no kind.
pub fn plain_line(kind: u32, first: u32, second: u32, commitment: u32) -> Line
    ensures { result ≡ plain_line kind first second commitment }
{
    Line {
        kind,
        first,
        second,
        commitment,
        t: [0u32; 2],
        challenge: 0,
        response: [0u32; 3],
    }
}

// The line of an entry, of what it and the lines above it open to.
fn made_line(base: Base, above: &[Opened; 64], own: Opened, entry: &Entry) -> Line
    requires modulus { 0 < base.modulus }
    requires product { entry.now.kind ≡ 3 → (entry.now.first < 64) × (entry.now.second < 64) × (entry.now.blinding < base.order) }
    ensures { (openings : List Opening) → Keeps above.now openings → opening own ≡ opening_of base.order openings entry.now
        → result ≡ line_of base openings entry.now }
{
    match Kind::try_from(entry.kind) {
        Ok(Kind::Sum) => plain_line(Kind::Sum as u32, entry.first, entry.second, 0),
        Ok(Kind::Product) => {
            let one = above[entry.first as usize];
            let two = above[entry.second as usize];
            product_line(base, one, two, own, entry)
        }
        _ => plain_line(Kind::Commitment as u32, 0, 0, commit(base, own)),
    }
}

// The lines of all entries, and lines of zeros beyond the count, of entries that are not refused.
pub fn made_lines(base: Base, entries: Entries) -> [Line; 64]
    requires { (write_ledger base entries).refusal ≡ 0 }
    ensures { result ≡ (ledger_of entries.count (made_line base entries)).lines }
{
    let mut lines = [plain_line(0, 0, 0, 0); 64];
    let mut above = [Opened {
        value: 0,
        blinding: 0,
    }; 64];
    for (i, entry) in entries.entries[..entries.count as usize].iter().enumerate() {
        let own = line_opening(base.order, &above, entry);
        lines[i] = made_line(base, &above, own, entry);
        above[i] = own;
    }
    lines
}
