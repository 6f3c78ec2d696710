// Which calls the states of the two sessions allow (01, "Sessions"; 02, card 13; refusals 17, 21, 32 and 34), on page A's sheet. Each call is
// given the session that the last one handed back.
use crossing::{ProverAnswer, ProverSession};
use lines::{answer_line, line, one, verdict};
use std::io;
use types::{Verifier, VerifierStep};

// Peggy's and Vic's steps are alike and stay two, since they are of two sessions.
// Peggy on a sheet, with her session. Each of her calls prints a label and the number that the call answers, and keeps the
// session that it hands back.
#[derive(Clone, Copy)]
struct Peggy<'a> {
    sheet: &'a [u8],
    session: ProverSession,
}

impl<'a> Peggy<'a> {
    // She begins with a new session.
    fn new(sheet: &'a [u8]) -> Self {
        Peggy {
            sheet,
            session: prover_session::new(),
        }
    }

    // What a call answered.
    fn took(&mut self, rt: &impl Print, label: &str, step: ProverAnswer) -> io::Result<()> {
        self.session = step.session;
        line(rt, label.as_bytes(), step.refusal)
    }

    // She commits to a nonce of one slot.
    fn commits(&mut self, rt: &impl Print, label: &str, nonce: u32) -> io::Result<()> {
        let step = prover_session::commit(self.sheet, self.session, one(nonce));
        self.took(rt, label, step)
    }

    // She responds to a challenge with a witness of one slot.
    fn responds(&mut self, rt: &impl Print, label: &str, c: u32, witness: u32) -> io::Result<()> {
        let step = prover_session::respond(self.sheet, self.session, c, one(witness));
        self.took(rt, label, step)
    }

    // She drops the session.
    fn drops(&mut self, rt: &impl Print, label: &str) -> io::Result<()> {
        let step = prover_session::drop_session(self.session);
        self.took(rt, label, step)
    }

    // She saves the session under a name.
    fn saves(&mut self, rt: &impl Print, label: &str, name: u32) -> io::Result<()> {
        let step = prover_session::save(self.session, name);
        self.took(rt, label, step)
    }

    // She returns to what she saved under a name.
    fn returns(&mut self, rt: &impl Print, label: &str, name: u32) -> io::Result<()> {
        let step = prover_session::return_to(self.session, name);
        self.took(rt, label, step)
    }

    // Prints all eight places of the nonce that her session holds.
    fn shows_nonce(&self, rt: &impl Print) -> io::Result<()> {
        let nonce = self.session.nonce;
        answer_line(rt, b"she holds the nonce:", 0, nonce, 8)
    }
}

// Vic on a sheet, with his session. Each of his calls prints a label and what the call answers, and keeps the session that it hands
// back.
#[derive(Clone, Copy)]
struct Vic<'a> {
    sheet: &'a [u8],
    session: Verifier,
}

impl<'a> Vic<'a> {
    // He begins with a new session.
    fn new(sheet: &'a [u8]) -> Self {
        Vic {
            sheet,
            session: verifier::new(),
        }
    }

    // What a call answered that judges nothing.
    fn took(&mut self, rt: &impl Print, label: &str, step: VerifierStep) -> io::Result<()> {
        self.session = step.session;
        line(rt, label.as_bytes(), step.refusal)
    }

    // He takes a commitment of one row.
    fn hears(&mut self, rt: &impl Print, label: &str, commitment: u32) -> io::Result<()> {
        let step = verifier::take_commitment(self.sheet, self.session, one(commitment));
        self.took(rt, label, step)
    }

    // He takes a challenge.
    fn asks(&mut self, rt: &impl Print, label: &str, challenge: u32) -> io::Result<()> {
        let step = verifier::take_challenge(self.sheet, self.session, challenge);
        self.took(rt, label, step)
    }

    // He takes a response of one column, and judges the round.
    fn judges(&mut self, rt: &impl Print, label: &str, response: u32) -> io::Result<()> {
        let step = verifier::take_response(self.sheet, self.session, one(response));
        self.session = step.session;
        let judged = step.verdict;
        verdict(rt, label.as_bytes(), judged)
    }
}

// A session of Peggy's that answers one challenge and no second one.
fn answering(rt: &impl Print, sheet: &[u8]) -> io::Result<()> {
    let mut peggy = Peggy::new(sheet);
    peggy.responds(rt, "a new Peggy responds: ", 3, 7)?;
    peggy.commits(rt, "she commits: ", 5)?;
    peggy.commits(rt, "she commits again: ", 5)?;
    peggy.responds(rt, "she responds with a wrong witness: ", 3, 5)?;
    peggy.responds(rt, "she responds: ", 3, 7)?;
    peggy.shows_nonce(rt)?;
    peggy.responds(rt, "she responds again: ", 1, 7)
}

// A session of Peggy's that is dropped and answers no challenge.
fn dropping(rt: &impl Print, sheet: &[u8]) -> io::Result<()> {
    let mut peggy = Peggy::new(sheet);
    peggy.commits(rt, "another Peggy commits: ", 5)?;
    peggy.drops(rt, "she drops the session: ")?;
    peggy.shows_nonce(rt)?;
    peggy.responds(rt, "she responds in the dropped session: ", 3, 7)
}

// A session of Peggy's that returns to what she saved: a commitment that was answered gets no second answer (32), and a session that
// returns to New goes on with another nonce.
fn returning(rt: &impl Print, sheet: &[u8]) -> io::Result<()> {
    let mut peggy = Peggy::new(sheet);
    peggy.saves(rt, "a third Peggy saves as 0: ", 0)?;
    peggy.commits(rt, "she commits: ", 5)?;
    peggy.saves(rt, "she saves as 7: ", 7)?;
    peggy.responds(rt, "she responds: ", 3, 7)?;
    peggy.returns(rt, "she returns to 6: ", 6)?;
    peggy.returns(rt, "she returns to 7: ", 7)?;
    peggy.shows_nonce(rt)?;
    peggy.responds(rt, "she responds again: ", 1, 7)?;
    peggy.returns(rt, "she returns to 0: ", 0)?;
    peggy.commits(rt, "she commits to another nonce: ", 6)?;
    peggy.responds(rt, "she responds: ", 1, 7)
}

// A session of Vic's, from a new one to the verdict; each state also turns back a call that belongs to another.
fn judging(rt: &impl Print, sheet: &[u8]) -> io::Result<()> {
    let mut vic = Vic::new(sheet);
    vic.asks(rt, "Vic takes a challenge while waiting: ", 3)?;
    vic.hears(rt, "he takes a commitment: ", 9)?;
    vic.judges(rt, "he takes a response before a challenge: ", 4)?;
    vic.asks(rt, "he takes a challenge: ", 3)?;
    vic.judges(rt, "he takes the response: ", 4)?;
    vic.judges(rt, "he takes a second response: ", 4)
}

// Three sessions of Peggy's and one of Vic's.
pub fn all(rt: &impl Print, sheet: &[u8]) -> io::Result<()> {
    answering(rt, sheet)?;
    dropping(rt, sheet)?;
    returning(rt, sheet)?;
    judging(rt, sheet)
}
