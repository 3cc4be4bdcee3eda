// The groups of a case: who says what, and when.
ghost use Rattle.std.specs.Prelude.{◌≡◌, ◌≤◌, [], length};
ghost use Rattle.bl.specs.Certificates.{most_certificates};
ghost use Rattle.verifier.specs.Verifying.{no_record};
ghost use Rattle.cases.specs.Case.{heading, group, groups};
ghost use Rattle.cases.specs.Found.{GoesOn, HeadingTold, GroupPut, GroupsPut};

use crate::reader::CaseReader;
use bl::Certificate;
use front::Front;
use procap::time::Time;
use procap::writable::LARGEST_NAME;
use text::line::BrokenLine;
use verifier::certificates::MOST_CERTIFICATES;

// What the lines of a group before its formula say: who says it, from when and to when.
#[derive(Clone, Copy)]
pub struct Heading {
    pub by: u16,
    pub from: Time,
    pub to: Time,
}

impl<'a> CaseReader<'a> {
    // The records of so many groups, with which the lines of hex begin; the bytes of their formulas are put one after another.
    pub(crate) fn groups(
        &mut self,
        count: usize,
    ) -> Result<Front<Certificate, MOST_CERTIFICATES>, BrokenLine>
        requires few { count ≤ most_certificates }
        requires none { self.old.bytes ≡ [] }
        ensures { GoesOn (λ input. groups input count) self.old self.new (GroupsPut self.new) result }
    {
        let mut records = [no_record(); MOST_CERTIFICATES];
        for i in 0..count {
            records[i] = self.group()?;
        }
        Ok(Front::of(records, count))
    }

    // The record of a group; the bytes of its formula are put behind those before.
    fn group(&mut self) -> Result<Certificate, BrokenLine>
        ensures { GoesOn group self.old self.new (GroupPut self.old self.new) result }
    {
        let heading = self.heading()?;
        let start = self.bytes().len();
        self.hex(b"says=")?;
        Ok(Certificate {
            principal: heading.by,
            from: heading.from,
            to: heading.to,
            start,
            length: self.bytes().len() - start,
        })
    }

    // The lines of a group before its formula.
    fn heading(&mut self) -> Result<Heading, BrokenLine>
        ensures { GoesOn heading self.old self.new (HeadingTold self.old self.new) result }
    {
        let by = self.number(b"by=", LARGEST_NAME)?;
        let from = self.time(b"from=")?;
        let to = self.time(b"to=")?;
        Ok(Heading {
            by: by as u16,
            from,
            to,
        })
    }
}

// A record of zeros.
fn no_record() -> Certificate
    ensures { result ≡ no_record }
{
    Certificate {
        principal: 0,
        from: Time::Moment(0),
        to: Time::Moment(0),
        start: 0,
        length: 0,
    }
}
