// Judging the rounds of product lines, by 01's judging on the values of their sheets, which are not written.
ghost use Rattle.std.specs.Prelude.{◌≡◌, ◌<◌, MatchOption};
ghost use Rattle.sigma.specs.Judge.{judge_loaded};
ghost use Rattle.sigma.specs.Valid.{Valid};
ghost use Rattle.ledgers.specs.Check.{check_ledger, first_rejected, rejects_line};
ghost use Rattle.ledgers.specs.Ledger.{line_instance, line_round, product_of};

use instance::Sheet;
use ledger_lines::{Kind, line_commitment, product_entries, product_header};
use ledgers::{Base, Ledger, Line};
use protocol::judge_loaded;
use types::{Round, Verdict};

// The verdict on the round of a product line whose factors have the commitments a and b.
fn product_verdict(base: Base, a: u32, b: u32, line: &Line) -> Verdict
    requires { Valid (product_of base a b line.now.commitment) }
    ensures { result ≡ judge_loaded (product_of base a b line.now.commitment) (line_round line.now) }
{
    let sheet = Sheet {
        header: product_header(base),
        entries: product_entries(base, b),
        statement: [a, line.commitment, 0, 0, 0, 0, 0, 0],
    };
    let t = line.t;
    let r = line.response;
    let round = Round {
        commitment: [t[0], t[1], 0, 0, 0, 0, 0, 0],
        challenge: line.challenge,
        response: [r[0], r[1], r[2], 0, 0, 0, 0, 0],
    };
    judge_loaded(&sheet, round)
}

// Whether a line is a product whose round is rejected, of the commitments of the lines above it.
fn rejects_line(base: Base, above: &[u32; 64], line: &Line) -> bool
    requires { line.now.kind ≡ 3 → (line.now.first < 64) × (line.now.second < 64) × Valid (line_instance base above.now line.now) }
    ensures { result ≡ rejects_line base above.now line.now }
{
    let Ok(Kind::Product) = Kind::try_from(line.kind) else {
        return false;
    };
    let a = above[line.first as usize];
    let b = above[line.second as usize];
    match product_verdict(base, a, b, line) {
        Verdict::Accepted => false,
        Verdict::Rejected(_) | Verdict::Refused(_) => true,
    }
}

// The first product line whose round is rejected, if there is one, of lines that are not refused.
pub fn first_rejected(base: Base, ledger: Ledger) -> Option<u32>
    requires { (check_ledger base ledger).refusal ≡ 0 }
    ensures { MatchOption result (first_rejected base ledger ≡ ledger.count)
        (λ line. (line ≡ first_rejected base ledger) × (line < ledger.count)) }
{
    let mut above = [0u32; 64];
    for (i, line) in ledger.lines[..ledger.count as usize].iter().enumerate() {
        if rejects_line(base, &above, line) {
            return Some(i as u32);
        }
        above[i] = line_commitment(base.modulus, &above, line);
    }
    None
}
