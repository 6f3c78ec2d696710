// The places of arrays that are read, and where two arrays differ (01, "A round").
// Arrays have eight places whatever n is: memory is fixed, and the structs that C reads have them so.
#![tactic(auto)]

ghost use Rattle.std.specs.Prelude.{◌≡◌, cond, not, ◌+◌, ◌^◌, ◌≤◌, ◌<◌, eqb};
ghost use Rattle.types.specs.declared.Verdict.TheVariants.{Accepted, Rejected};
ghost use Rattle.lists.specs.Places.{places, pad8};
ghost use Rattle.sigma.specs.Comparison.{first_difference, differ, differences, compare_sides};

use types::Verdict;

// The first n places of values, and zeros beyond them.
pub fn first_places(values: [u32; 8], n: usize) -> [u32; 8]
    requires { n ≤ 8 }
    ensures { result ≡ pad8 0 (places n values) }
{
    let mut kept = [0u32; 8];
    kept[..n].copy_from_slice(&values[..n]);
    kept
}

// The first place below n at which xs and ys differ, or n where there is none.
pub fn first_difference(xs: [u32; 8], ys: [u32; 8], n: usize) -> usize
    requires { n ≤ 8 }
    ensures value { result ≡ first_difference n xs ys }
    ensures within { result ≤ n }
{
    // By index: a chain over two slices is no plainer, since n stands for none.
    for i in 0..n {
        if xs[i] != ys[i] {
            return i;
        }
    }
    n
}

// Whether xs and ys differ at some place below n.
pub fn differ(xs: [u32; 8], ys: [u32; 8], n: usize) -> bool
    requires { n ≤ 8 }
    ensures { result ≡ differ n xs ys }
{
    first_difference(xs, ys, n) < n
}

// The mask of a comparison that has come to a place: bit, which stands for the place, is added where its two values differ.
pub fn marked(mask: u32, bit: u32, left: u32, right: u32) -> u32
    requires { mask + bit < 2 ^ 32 }
    ensures { result ≡ mask + cond (not (eqb left right)) bit 0 }
{
    if left != right {
        return mask + bit;
    }
    mask
}

// The places below n at which xs and ys differ, as a mask: bit i for place i.
fn differences(xs: [u32; 8], ys: [u32; 8], n: usize) -> u32
    requires { n ≤ 8 }
    ensures { result ≡ differences n xs ys }
{
    let mut mask = 0u32;
    let mut bit = 1u32;
    for i in 0..n {
        mask = marked(mask, bit, xs[i], ys[i]);
        bit = 2 * bit;
    }
    mask
}

// The verdict of a mask of rows that differ: accepted where there is none, else rejected with all of them.
pub fn verdict_of(rows: u32) -> Verdict
    ensures { result ≡ cond (eqb rows 0) Accepted (Rejected rows) }
{
    if rows != 0 {
        return Verdict::Rejected(rows);
    }
    Verdict::Accepted
}

// The verdict on two sides of n rows: accepted where they agree in each, else rejected with all rows that differ.
pub fn compare(xs: [u32; 8], ys: [u32; 8], n: usize) -> Verdict
    requires { n ≤ 8 }
    ensures { result ≡ compare_sides n xs ys }
{
    verdict_of(differences(xs, ys, n))
}
