// The lent certificate records: whether each is well formed, and their rows.
ghost use Rattle.std.specs.Prelude.{◌≡◌, length};
ghost use Rattle.procap.specs.Tells.{Tells};
ghost use Rattle.bl.specs.Certificates.{fixed_time};
ghost use Rattle.judging.specs.RowsOf.{all_numbers};
ghost use Rattle.verifier.specs.Verifying.{row_of, WellFormedRecord, Taken};

use bl::Certificate;
use formula::ends::holds_formula;
use formula::parts::{FormulaAt, Judgement};
use formula::terms::Terms;
use judging::rows::{Row, put_row};
use procap::answer::Answer;
use procap::time::{LATEST_SECOND, Time};

// How many records are taken.
pub const MOST_CERTIFICATES: usize = 32;
// How many bytes a part may have.
pub const MOST_PART_BYTES: usize = 256;

// Takes the lent records: too many of them are refused, and so is the first malformed one. The rows of those before it are put.
pub(crate) fn take_records(
    certificates: &[Certificate],
    buffer: &[u8],
    rows: &mut [u64],
) -> Result<(), Answer>
    requires { length rows.old ≡ all_numbers }
    ensures { Taken certificates.now buffer.now result rows.new }
{
    if MOST_CERTIFICATES < certificates.len() {
        return Err(Answer::CertificateMalformed(0));
    }
    for (index, certificate) in certificates.iter().enumerate() {
        if !well_formed(*certificate, buffer) {
            return Err(Answer::CertificateMalformed(index));
        }
        put_row(rows, index, row_of(*certificate));
    }
    Ok(())
}

// Whether a record is well formed. (As one chain of `&&` the last two goals stayed open.)
fn well_formed(certificate: Certificate, buffer: &[u8]) -> bool
    ensures { Tells result (WellFormedRecord buffer.now certificate) }
{
    if !may_stand(certificate.from) {
        return false;
    }
    if !may_stand(certificate.to) {
        return false;
    }
    let start = certificate.start;
    let length = certificate.length;
    if MOST_PART_BYTES < length {
        return false;
    }
    if buffer.len() < start {
        return false;
    }
    if buffer.len() - start < length {
        return false;
    }
    holds_formula(&buffer[start..start + length])
}

// Whether a time may stand in a record: no ctime, no moment above the latest.
#[tactic(auto, unfolding(bl::specs::Certificates::fixed_time))]
fn may_stand(time: Time) -> bool
    ensures { result ≡ fixed_time time }
{
    match time {
        Time::Moment(second) => second <= LATEST_SECOND,
        Time::MinusInfinity | Time::PlusInfinity => true,
        Time::Ctime => false,
    }
}

// The row of one record: a claim of its principal.
fn row_of(certificate: Certificate) -> Row
    ensures { result ≡ row_of certificate }
{
    Row {
        whose: Some(u64::from(certificate.principal)),
        judgement: Judgement {
            formula: FormulaAt {
                at: certificate.start,
                terms: Terms::none(),
            },
            from: certificate.from,
            to: certificate.to,
        },
    }
}
