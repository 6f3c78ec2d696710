// Slices of numbers as the arrays of eight that the writer takes.
ghost use Rattle.std.specs.Prelude.{◌≤◌, ◌≡◌, length};
ghost use Rattle.lists.specs.Places.{pad8};

// The numbers of a slice of at most eight, with 0 in the places beyond them.
pub fn eight_of(numbers: &[u32]) -> [u32; 8]
    requires { length numbers.now ≤ 8 }
    ensures { result ≡ pad8 0 numbers.now }
{
    let mut eight = [0u32; 8];
    eight[..numbers.len()].copy_from_slice(numbers);
    eight
}
