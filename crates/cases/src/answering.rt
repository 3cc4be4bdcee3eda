// The whole way from a case to what is printed.
ghost use Rattle.std.specs.Prelude.{◌≡◌, ◌≤◌, length};
ghost use Rattle.text.specs.Calls.{Wrote};
ghost use Rattle.cases.specs.Calls.{checked, answering};
ghost use Rattle.cases.specs.Found.{verified_in};

use crate::case::CaseRead;
use crate::reader::CaseReader;
use procap::answer::Answer;
use procap::procap::Procap;
use text::line::BrokenLine;
use text::writer::{WrittenText, write_refusal, write_text};
use verifier::verify::verify;

// How many bytes a case may have.
pub const MOST_INPUT: usize = 65_536;

// Puts what is printed for a case at the front of the buffer, the procap's text or the refusal's two lines: 13 where it is too short.
pub fn answer_case(input: &[u8], out: &mut [u8]) -> WrittenText
    ensures { Wrote (answering input.now (length out.old)) out.old result out.new }
{
    match checked(input) {
        Ok(procap) => write_text(procap, out),
        Err(answer) => write_refusal(answer, out),
    }
}

// What the input comes to: the procap that verify issues for the case that it says, or the answer that refuses it.
fn checked(input: &[u8]) -> Result<Procap, Answer>
    ensures { result ≡ checked input.now }
{
    if MOST_INPUT < input.len() {
        return Err(Answer::InputMalformed(0));
    }
    let mut reader = CaseReader::new(input);
    match reader.case() {
        Ok(case) => verified(&case, reader.bytes()),
        Err(BrokenLine(line)) => Err(Answer::InputMalformed(line)),
    }
}

// What verify comes to for a case that was read, and the bytes of its formulas and its proof. A case has no pairs.
fn verified(case: &CaseRead, bytes: &[u8]) -> Result<Procap, Answer>
    requires { case.now.split ≤ length bytes.now }
    ensures { result ≡ verified_in bytes.now case.now }
{
    let (formulas, proof) = bytes.split_at(case.split);
    let verified = verify(case.request, case.certificates.lent(), formulas, &[], proof);
    match verified.answer {
        Answer::Granted => Ok(verified.procap),
        answer => Err(answer),
    }
}
