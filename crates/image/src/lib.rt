// The values of a round on loaded values (01, "A round"): the image, the verifier's two sides and the verdict on them, and the
// response. Nothing is refused here.
// The bounds of fixed fields are clauses and no type, since a `Sheet` would ask more of callers.
#![tactic(auto)]

ghost use Rattle.std.specs.Prelude.{◌≡◌, List, [], ℕ, ◌≤◌, ◌<◌, get_or};
ghost use Rattle.lists.specs.Places.{places, pad8};
ghost use Rattle.sigma.specs.Image.{row_image, image};
ghost use Rattle.sigma.specs.Round.{response_coordinate, response, expected_image, verdict};
ghost use Rattle.sigma.specs.Instance.{table_with, instance_with};
ghost use Rattle.instance.specs.Values.{values_of};

use comparison::{compare, first_places, marked, verdict_of};
use instance::Sheet;
use modular::{mul_mod, pow_mod};
use powers::{mul_powers, powers, side_by_side};
pub use refusals::not_computed as refused;
use straus::multi_powers;
use types::{Header, Verdict};

// Row i of the image of x, of a table that has the entries row there. It takes the row alone, since all entries handed on by
// value are copied.
fn row_product(h: Header, row: [u32; 8], x: [u32; 8], i: usize) -> u32
    requires { (0 < h.modulus) × (h.columns ≤ 8) × (i < 8) }
    ensures { (entries : List (List ℕ)) → row ≡ get_or entries i [] → result ≡ row_image (table_with h entries) x i }
{
    if h.kind != 1 {
        return pow_mod(x[i], h.order, h.modulus);
    }
    let columns = h.columns as usize;
    let mut value = 1 % h.modulus;
    for j in 0..columns {
        value = mul_mod(value, pow_mod(row[j], x[j], h.modulus), h.modulus);
    }
    value
}

// Row i of the image of x: in kind 1 the product over the columns of the entry by x's slot, in kind 2 slot i by the exponent.
pub fn row_image(h: Header, entries: [[u32; 8]; 8], x: [u32; 8], i: usize) -> u32
    requires { (0 < h.modulus) × (h.columns ≤ 8) × (i < 8) }
    ensures { result ≡ row_image (table_with h entries) x i }
{
    let row = entries[i];
    row_product(h, row, x, i)
}

// The image of x, with the rows side by side.
fn image_rows(h: Header, entries: [[u32; 8]; 8], x: [u32; 8]) -> [u32; 8]
    requires { (0 < h.modulus) × (h.rows ≤ 8) × (h.columns ≤ 8) }
    ensures { result ≡ pad8 0 (image (table_with h entries) x) }
{
    let rows = h.rows as usize;
    if h.kind != 1 {
        return first_places(powers(x, rows, h.order, h.modulus), rows);
    }
    let columns = h.columns as usize;
    first_places(multi_powers(entries, rows, x, columns, h.modulus), rows)
}

// The image of x, a value for each row, side by side where that is worth while. The value of a row that is alone stands in its
// array at once, so that what copies the array need not wait.
pub fn image(h: Header, entries: [[u32; 8]; 8], x: [u32; 8]) -> [u32; 8]
    requires { (0 < h.modulus) × (h.rows ≤ 8) × (h.columns ≤ 8) }
    ensures { result ≡ pad8 0 (image (table_with h entries) x) }
{
    let rows = h.rows as usize;
    if rows == 1 {
        let row = entries[0];
        return [row_product(h, row, x, 0), 0, 0, 0, 0, 0, 0, 0];
    }
    if side_by_side(rows, h.modulus) {
        return image_rows(h, entries, x);
    }
    let mut values = [0u32; 8];
    for i in 0..rows {
        let row = entries[i];
        values[i] = row_product(h, row, x, i);
    }
    values
}

// What the response's image has to be: t times the statement by the challenge, a value for each row, side by side where that is
// worth while.
pub fn expected_image(h: Header, statement: [u32; 8], t: [u32; 8], c: u32) -> [u32; 8]
    requires { (0 < h.modulus) × (h.rows ≤ 8) }
    ensures { (entries : List (List ℕ)) → result ≡ pad8 0 (expected_image (instance_with h entries statement) t c) }
{
    let rows = h.rows as usize;
    if side_by_side(rows, h.modulus) {
        return mul_powers(t, statement, rows, c, h.modulus);
    }
    let mut values = [0u32; 8];
    for i in 0..rows {
        values[i] = mul_mod(t[i], pow_mod(statement[i], c, h.modulus), h.modulus);
    }
    values
}

// The verdict on a commitment t, a challenge c and a response r: accepted where the two sides agree in every row, else rejected
// with all rows in which they differ. What computes rows side by side is handed copies. Else there are three rows at most, each
// taken at its own index and compared as a number, so that the sheet is not copied. A row that is alone makes no mask,
// so that what reads the verdict need not wait for the two numbers.
pub fn verdict(sheet: &Sheet, t: [u32; 8], c: u32, r: [u32; 8]) -> Verdict
    ensures { result ≡ verdict (values_of sheet.now) (places sheet.now.header.rows t) c (places sheet.now.header.columns r) }
{
    let h = sheet.header;
    let rows = h.rows as usize;
    if side_by_side(rows, h.modulus) {
        let copy = h;
        let entries = sheet.entries;
        let statement = sheet.statement;
        let response = r;
        return compare(
            image(copy, entries, response),
            expected_image(copy, statement, t, c),
            rows,
        );
    }
    let row = sheet.entries[0];
    let left = row_product(h, row, r, 0);
    let right = mul_mod(t[0], pow_mod(sheet.statement[0], c, h.modulus), h.modulus);
    if rows == 1 {
        if left != right {
            return Verdict::Rejected(1);
        }
        return Verdict::Accepted;
    }
    let first = marked(0, 1, left, right);
    let row = sheet.entries[1];
    let left = row_product(h, row, r, 1);
    let right = mul_mod(t[1], pow_mod(sheet.statement[1], c, h.modulus), h.modulus);
    let second = marked(first, 2, left, right);
    if rows == 2 {
        return verdict_of(second);
    }
    let row = sheet.entries[2];
    let left = row_product(h, row, r, 2);
    let right = mul_mod(t[2], pow_mod(sheet.statement[2], c, h.modulus), h.modulus);
    verdict_of(marked(second, 4, left, right))
}

// A slot of the response to c, of the nonce's slot k and the witness's slot x: k + c x mod q in kind 1, k x^c mod m in kind 2.
fn response_coordinate(h: Header, k: u32, c: u32, x: u32) -> u32
    requires { (0 < h.modulus) × (0 < h.order) }
    ensures { result ≡ response_coordinate h k c x }
{
    if h.kind == 1 {
        return ((k as u64 + c as u64 * x as u64) % h.order as u64) as u32;
    }
    mul_mod(k, pow_mod(x, c, h.modulus), h.modulus)
}

// The response to c, of nonce k and witness x, a value for each column, in kind 2 side by side where that is worth while.
pub fn response(h: Header, k: [u32; 8], c: u32, x: [u32; 8]) -> [u32; 8]
    requires { (0 < h.modulus) × (0 < h.order) × (h.columns ≤ 8) }
    ensures { result ≡ pad8 0 (response h k c x) }
{
    let columns = h.columns as usize;
    if h.kind != 1 {
        if side_by_side(columns, h.modulus) {
            return mul_powers(k, x, columns, c, h.modulus);
        }
    }
    let mut values = [0u32; 8];
    for j in 0..columns {
        values[j] = response_coordinate(h, k[j], c, x[j]);
    }
    values
}
