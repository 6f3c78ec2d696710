// Kind 2: for each number below m its smallest root, the smallest group element r with r^e mod m = v.
ghost use Rattle.std.specs.Prelude.{◌≡◌, ◌≢◌, length};
ghost use Rattle.solver.specs.Prepared.{Roots};
ghost use Rattle.solver.specs.Small.{Small};

use modular::{is_element, pow_mod};
use types::Header;

// Puts the smallest root of each number v below m in place v of the table, 0 if there is none. The numbers are tried from 0 on,
// and a root is kept if none stands in its place.
pub fn fill_roots(h: Header, table: &mut [u32])
    requires { Small h × (h.kind ≢ 1) × (length table.old ≡ 32768) }
    ensures { Roots h h.modulus table.new }
{
    table[..h.modulus as usize].fill(0);
    for r in 0..h.modulus {
        if is_element(h, r) {
            let v = pow_mod(r, h.order, h.modulus) as usize;
            if table[v] == 0 {
                table[v] = r;
            }
        }
    }
}
