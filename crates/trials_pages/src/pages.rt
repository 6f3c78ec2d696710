// Pages A to J of 01, each but I on the sheet that the sheet maker makes for it with the shipped pattern file. The printed values
// are those of the table in crates/examples/specs/Pages.antt.
use extractor::extract;
use instance::load;
use lines::{answer, answer_line, front, loading, one, three, verdict};
use maker::make;
use protocol::{judge, simulate};
use std::io;
use types::{Round, Verifier};

// Vic's session once he has taken a commitment and a challenge.
fn asked(sheet: &[u8], commitment: [u32; 8], challenge: u32) -> Verifier {
    let holding = verifier::take_commitment(sheet, verifier::new(), commitment).session;
    verifier::take_challenge(sheet, holding, challenge).session
}

// A run of both sessions: Peggy commits, Vic takes the commitment and the challenge, Peggy responds, Vic judges. Prints the
// commitment, the response and the verdict.
fn run(
    rt: &impl Print,
    label: &str,
    sheet: &[u8],
    witness: [u32; 8],
    nonce: [u32; 8],
    c: u32,
) -> io::Result<()> {
    let header = load(sheet).header;
    let committed = prover_session::commit(sheet, prover_session::new(), nonce);
    let t = committed.values;
    let vic = asked(sheet, t, c);
    let peggy = committed.session;
    let responded = prover_session::respond(sheet, peggy, c, witness);
    let r = responded.values;
    answer(
        rt,
        label.as_bytes(),
        committed.refusal,
        t,
        header.rows as usize,
    )?;
    answer(rt, b", r", responded.refusal, r, header.columns as usize)?;
    let judged = verifier::take_response(sheet, vic, r).verdict;
    verdict(rt, b", ", judged)
}

// A run with a witness and a nonce of one slot.
fn run_one(
    rt: &impl Print,
    label: &str,
    sheet: &[u8],
    witness: u32,
    nonce: u32,
    c: u32,
) -> io::Result<()> {
    run(rt, label, sheet, one(witness), one(nonce), c)
}

// A round of one row and one column.
fn round_of(t: u32, c: u32, r: u32) -> Round {
    Round {
        commitment: one(t),
        challenge: c,
        response: one(r),
    }
}

// Prints the witness of one slot that two rounds give, and that the same rounds give when swapped.
fn both_ways(
    rt: &impl Print,
    label: &str,
    sheet: &[u8],
    first: Round,
    second: Round,
) -> io::Result<()> {
    let given = extract(sheet, first, second);
    let witness = given.values;
    answer(rt, label.as_bytes(), given.refusal, witness, 1)?;
    let swapped = extract(sheet, second, first);
    let same = swapped.values;
    answer_line(rt, b", swapped", swapped.refusal, same, 1)
}

// Pages A, B and C: a run, extracting either way round, and simulating.
fn schnorr(rt: &impl Print, sheet: &[u8]) -> io::Result<()> {
    run_one(rt, "A: t", sheet, 7, 5, 3)?;
    both_ways(
        rt,
        "B: witness",
        sheet,
        round_of(9, 3, 4),
        round_of(9, 1, 1),
    )?;
    let simulated = simulate(sheet, 3, one(0));
    let t = simulated.values;
    answer_line(rt, b"C: t", simulated.refusal, t, 1)
}

// The sheet of a pattern with m 23, q 11 and K 11, stored in the buffer.
fn pattern_sheet<'a>(
    patterns: &[u8],
    number: u32,
    values: &[u32],
    statement: &[u32],
    buffer: &'a mut [u8],
) -> &'a [u8] {
    let made = make(patterns, number, 23, 11, 11, values, statement, buffer);
    front(buffer, made.length)
}

// Page D: two witnesses whose rounds are the same.
fn okamoto(rt: &impl Print, patterns: &[u8]) -> io::Result<()> {
    let mut buffer = [0u8; 64];
    let sheet = pattern_sheet(patterns, 2, &[2u32, 3], &[18u32], &mut buffer);
    let zero = three(0, 0, 99);
    run(rt, "D, witness 1 2: t", sheet, three(1, 2, 99), zero, 1)?;
    let nonce = three(6, 2, 99);
    run(rt, "D, witness 6 0: t", sheet, three(6, 0, 99), nonce, 1)
}

// Page E: two rows.
fn two_rows(rt: &impl Print, patterns: &[u8]) -> io::Result<()> {
    let mut buffer = [0u8; 64];
    let sheet = pattern_sheet(patterns, 4, &[2u32, 16], &[13u32, 18], &mut buffer);
    run_one(rt, "E: t", sheet, 7, 5, 3)
}

// Page F: two rows, and an image as the commitment to a nonce, which is the witness here.
fn image(rt: &impl Print, patterns: &[u8]) -> io::Result<()> {
    let mut buffer = [0u8; 64];
    let sheet = pattern_sheet(patterns, 5, &[2u32, 3, 3], &[12u32, 9], &mut buffer);
    let witness = three(2, 1, 0);
    run(rt, "F: t", sheet, witness, witness, 1)
}

// Pages G and H: two runs in kind 2, and extracting from their rounds either way round.
fn root(rt: &impl Print, patterns: &[u8]) -> io::Result<()> {
    let mut buffer = [0u8; 64];
    let made = make(patterns, 0, 35, 5, 5, &[], &[32u32], &mut buffer);
    let sheet = front(&buffer, made.length);
    run_one(rt, "G, c 1: t", sheet, 2, 3, 1)?;
    run_one(rt, "G, c 3: t", sheet, 2, 3, 3)?;
    both_ways(
        rt,
        "H: witness",
        sheet,
        round_of(33, 1, 6),
        round_of(33, 3, 24),
    )
}

// Prints the number that loading a sheet of kind 1 with one row and one column answers, for values below 256. The sheet stands
// byte by byte, since no writer writes one that is refused.
fn small_sheet(
    rt: &impl Print,
    label: &str,
    modulus: u8,
    order: u8,
    challenges: u8,
    entry: u8,
    statement: u8,
) -> io::Result<()> {
    let sheet = [
        0x48, 0x4F, 0x4D, 0, 1, 1, 0, 0, 0, modulus, 0, 0, 0, order, 0, 0, 0, challenges, 1, 1, 0,
        0, 0, entry, 0, 0, 0, statement,
    ];
    loading(rt, label.as_bytes(), &sheet)
}

// Page I: the largest challenge count at a prime order, at one that is not prime, and the next count.
fn challenge_counts(rt: &impl Print) -> io::Result<()> {
    small_sheet(rt, "I, q 11, K 11: ", 23, 11, 11, 2, 13)?;
    small_sheet(rt, "I, q 11, K 12: ", 23, 11, 12, 2, 13)?;
    small_sheet(rt, "I, q 15, K 3: ", 31, 15, 3, 1, 1)?;
    small_sheet(rt, "I, q 15, K 4: ", 31, 15, 4, 1, 1)
}

// Page J: a commitment that is no group element, a response that is a slot, so that the round is judged, and one that is none.
fn tested_values(rt: &impl Print, sheet: &[u8]) -> io::Result<()> {
    verdict(rt, b"J, t 5: ", judge(sheet, round_of(5, 0, 0)))?;
    verdict(rt, b"J, response 10: ", judge(sheet, round_of(9, 0, 10)))?;
    verdict(rt, b"J, response 11: ", judge(sheet, round_of(9, 0, 11)))
}

// Pages A to J, with a file of 01's patterns; the sheet is page A's.
pub fn all(rt: &impl Print, patterns: &[u8], sheet: &[u8]) -> io::Result<()> {
    schnorr(rt, sheet)?;
    okamoto(rt, patterns)?;
    two_rows(rt, patterns)?;
    image(rt, patterns)?;
    root(rt, patterns)?;
    challenge_counts(rt)?;
    tested_values(rt, sheet)
}
