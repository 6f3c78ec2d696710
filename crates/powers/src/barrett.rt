// Barrett's method: a product modulo m by multiplications with the reciprocal of m and with m, in place of a division.
ghost use Rattle.std.specs.Prelude.{◌≡◌, ◌*◌, ◌/◌, ◌%◌, ◌<◌};
ghost use Rattle.powers.specs.Reciprocal.{reciprocal_of};

// The upper 64 bits of u * v. Each number is cut into halves of 32 bits, and the four products of two halves are added column
// by column, as in multiplying by hand in base 2^32. The compiler makes one multiplication of it.
fn high_product(u: u64, v: u64) -> u64
    ensures { result ≡ u * v / 18446744073709551616 }
{
    let u0 = u % 4294967296;
    let u1 = u / 4294967296;
    let v0 = v % 4294967296;
    let v1 = v / 4294967296;
    let low = u0 * v0;
    let middle = u1 * v0 + low / 4294967296;
    let next = middle % 4294967296 + u0 * v1;
    u1 * v1 + middle / 4294967296 + next / 4294967296
}

// A modulus with its reciprocal, made once for many products.
#[derive(Clone, Copy)]
pub struct Barrett {
    pub modulus: u32,
    reciprocal: u64,
    pub ghost some: { 0 < modulus },
    ghost exact: { reciprocal ≡ reciprocal_of modulus },
}

impl Barrett {
    // The modulus with how often it goes into 2^64 - 1.
    pub fn new(modulus: u32) -> Barrett
        requires { 0 < modulus }
        ensures { result.modulus ≡ modulus }
    {
        Barrett {
            modulus,
            reciprocal: u64::MAX / modulus as u64,
        }
    }

    // The reciprocal of the modulus: how often the modulus goes into 2^64 - 1.
    pub fn reciprocal(self) -> u64
        ensures { result ≡ reciprocal_of self.modulus }
    {
        self.reciprocal
    }

    // The product of a and b by the modulus. The quotient that the reciprocal gives is right or one too small.
    pub fn mul(self, a: u32, b: u32) -> u32
        ensures { result ≡ a * b % self.modulus }
    {
        let product = a as u64 * b as u64;
        let quotient = high_product(product, self.reciprocal());
        let rest = product - quotient * self.modulus as u64;
        if rest >= self.modulus as u64 {
            return (rest - self.modulus as u64) as u32;
        }
        rest as u32
    }
}
