// Prints the marker's text on stored sheets, round files and levels; its stdout is what the judge says of them.
//
// The file `cases.bin`, in the folder that it is run in, has case after case: the sheet's length in two bytes, the round file's
// in four and the level's in two, high byte first, then the bytes of the three.
#![tactic(auto)]

ghost use Rattle.std.specs.Prelude.{◌<◌, length, IfSome};

use fields::{read_u16, read_u32};
use files::read_file;
use report::{LONGEST, mark};
use std::io;

// How many bytes of stored cases are read.
const CASES: usize = 100000;

// How many bytes the three lengths have that stand in front of a case.
const LENGTHS: usize = 8;

// A case: a sheet, a round file and a level.
#[derive(Drop)]
struct Case<'a> {
    sheet: &'a [u8],
    file: &'a [u8],
    level: &'a [u8],
}

// The case that cases begins with and what stands behind it, where it is whole.
fn first_case(cases: &[u8]) -> Option<(Case<'_>, &[u8])>
    ensures { IfSome result (λ split. length split.1.now < length cases.now) }
{
    let (lengths, rest) = cases.split_at_checked(LENGTHS)?;
    let (sheet, rest) = rest.split_at_checked(read_u16(lengths, 0) as usize)?;
    let (file, rest) = rest.split_at_checked(read_u32(lengths, 2) as usize)?;
    let (level, rest) = rest.split_at_checked(read_u16(lengths, 6) as usize)?;
    Some((Case { sheet, file, level }, rest))
}

// Prints the marker's text on a case.
fn print_text(rt: &impl Print, case: Case) -> io::Result<()> {
    let mut text = [0u8; LONGEST];
    let length = mark(case.sheet, case.file, case.level, &mut text);
    rt.write_all(&text[..length])
}

// Prints the text on each case. At a case that is not whole it prints a line that says so, and ends.
fn print_all(rt: &impl Print, cases: &[u8]) -> io::Result<()> {
    let mut rest = cases;
    while !rest.is_empty() {
        let Some((case, behind)) = first_case(rest) else {
            return println!(rt; "cases.bin is damaged");
        };
        print_text(rt, case)?;
        rest = behind;
    }
    Ok(())
}

fn main(rt: HostRuntime) -> io::Result<()> {
    let mut cases = [0u8; CASES];
    let length = read_file(&rt, b"cases.bin", &mut cases);
    print_all(&rt, &cases[..length])
}
