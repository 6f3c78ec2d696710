// Four numbers side by side: when that is worth while, their products, and their powers by one exponent.
ghost use Rattle.std.specs.Prelude.{◌≡◌, ◌&&◌, ◌||◌, ◌≤◌, ◌<◌, ltb};
ghost use Rattle.powers.specs.Places.{four_at, lanes, products_of, powers_of};

use crate::barrett::Barrett;

// Whether n values modulo m are quicker side by side. Four are; two or three are where products pass 32 bits, so that dividing
// takes long. What is computed is the same either way.
pub fn side_by_side(n: usize, m: u32) -> bool
    ensures { result ≡ (ltb 3 n || (ltb 1 n && ltb 65535 m)) }
{
    n > 3 || n > 1 && m > 65535
}

// Four numbers, passed by value so that they stay in registers.
#[derive(Clone, Copy)]
pub struct Four {
    pub a: u32,
    pub b: u32,
    pub c: u32,
    pub d: u32,
}

impl Four {
    // One number in all four places.
    pub fn splat(value: u32) -> Four
        ensures { result ≡ record { a = value; b = value; c = value; d = value } }
    {
        Four {
            a: value,
            b: value,
            c: value,
            d: value,
        }
    }

    // The four values from index i on.
    pub(crate) fn at(values: [u32; 8], i: usize) -> Four
        requires { i ≤ 4 }
        ensures { result ≡ four_at values i }
    {
        Four {
            a: values[i],
            b: values[i + 1],
            c: values[i + 2],
            d: values[i + 3],
        }
    }

    // The four products of these and other ones, by the modulus.
    pub fn mul(self, other: Four, by: Barrett) -> Four
        ensures { lanes result ≡ products_of by.modulus 4 (lanes self) (lanes other) }
    {
        Four {
            a: by.mul(self.a, other.a),
            b: by.mul(self.b, other.b),
            c: by.mul(self.c, other.c),
            d: by.mul(self.d, other.d),
        }
    }

    // The powers of the four by exponent, by squaring and multiplying, the exponent's low bit first.
    pub(crate) fn pow(self, exponent: u32, by: Barrett) -> Four
        ensures { lanes result ≡ powers_of by.modulus exponent 4 (lanes self) }
    {
        let mut square = self;
        let mut power = Four::splat(1 % by.modulus);
        let mut left = exponent;
        while left > 0 {
            if left % 2 == 1 {
                power = power.mul(square, by);
            }
            square = square.mul(square, by);
            left = left / 2;
        }
        power
    }
}
