// Lines on standard output: a label, and then what a call answered. An error is that of a write.
// Arrays have eight places whatever n is: memory is fixed, and the structs that C reads have them so.
use instance::load;
use std::io;
use types::Verdict;

// Prints a label and a number on a line.
pub fn line(rt: &impl Print, label: &[u8], number: u32) -> io::Result<()> {
    rt.write_all(label)?;
    println!(rt; "{number}")
}

// Prints a label and a count of bytes on a line.
pub fn length(rt: &impl Print, label: &[u8], bytes: &[u8]) -> io::Result<()> {
    rt.write_all(label)?;
    let count = bytes.len();
    println!(rt; "{count}")
}

// Prints a label and the number that loading a sheet answers on a line.
pub fn loading(rt: &impl Print, label: &[u8], sheet: &[u8]) -> io::Result<()> {
    line(rt, label, load(sheet).refusal)
}

// Prints a space and a number.
fn spaced(rt: &impl Print, number: u32) -> io::Result<()> {
    print!(rt; " {number}")
}

// Prints the first count values, with a space before each.
fn print_first(rt: &impl Print, values: [u32; 8], count: usize) -> io::Result<()> {
    for value in values.iter().take(count) {
        spaced(rt, *value)?;
    }
    Ok(())
}

// Prints a label, and then the first count values of an answer or, where it is refused, the number.
pub fn answer(
    rt: &impl Print,
    label: &[u8],
    refusal: u32,
    values: [u32; 8],
    count: usize,
) -> io::Result<()> {
    rt.write_all(label)?;
    if refusal != 0 {
        return print!(rt; " refused {refusal}");
    }
    print_first(rt, values, count)
}

// Prints what `answer` prints, and ends the line.
pub fn answer_line(
    rt: &impl Print,
    label: &[u8],
    refusal: u32,
    values: [u32; 8],
    count: usize,
) -> io::Result<()> {
    answer(rt, label, refusal, values, count)?;
    println!(rt;)
}

// Prints the rows of a mask, rising, each with a space before it.
fn print_rows(rt: &impl Print, mask: u32) -> io::Result<()> {
    let mut rest = mask;
    for row in 0..8 {
        if rest % 2 == 1 {
            spaced(rt, row)?;
        }
        rest /= 2;
    }
    Ok(())
}

// Prints a label and a verdict, in the words of the marker, and ends the line.
pub fn verdict(rt: &impl Print, label: &[u8], verdict: Verdict) -> io::Result<()> {
    rt.write_all(label)?;
    match verdict {
        Verdict::Accepted => println!(rt; "accepted"),
        Verdict::Rejected(mask) => {
            print!(rt; "rejected")?;
            print_rows(rt, mask)?;
            println!(rt;)
        }
        Verdict::Refused(number) => println!(rt; "refused {number}"),
    }
}
