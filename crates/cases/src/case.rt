// All lines of a case.
ghost use Rattle.std.specs.Prelude.{◌≡◌, ◌≤◌, []};
ghost use Rattle.bl.specs.Certificates.{most_certificates};
ghost use Rattle.cases.specs.Case.{case_with, case_lines};
ghost use Rattle.cases.specs.Found.{CaseReads};

use crate::reader::CaseReader;
use bl::Certificate;
use front::Front;
use procap::procap::Request;
use text::line::BrokenLine;
use verifier::certificates::MOST_CERTIFICATES;

// What a case asks. Of its bytes the first `split` are those of the formulas, and the others the proof's.
#[derive(Drop)]
pub struct CaseRead {
    pub request: Request,
    pub certificates: Front<Certificate, MOST_CERTIFICATES>,
    pub split: usize,
}

impl<'a> CaseReader<'a> {
    // The whole case.
    pub(crate) fn case(&mut self) -> Result<CaseRead, BrokenLine>
        requires first { self.old.line ≡ 1 }
        requires none { self.old.bytes ≡ [] }
        ensures { CaseReads (case_lines self.old.input self.old.line self.old.at) result self.new.bytes }
    {
        let request = self.request()?;
        let count = self.number(b"certs=", MOST_CERTIFICATES as u64)?;
        self.case_with(request, count as usize)
    }

    // The case of a request from its first group on, with so many groups.
    fn case_with(&mut self, request: Request, count: usize) -> Result<CaseRead, BrokenLine>
        requires few { count ≤ most_certificates }
        requires none { self.old.bytes ≡ [] }
        ensures { CaseReads (case_with self.old.input request count self.old.line self.old.at) result self.new.bytes }
    {
        let certificates = self.groups(count)?;
        let split = self.bytes().len();
        self.hex(b"proof=")?;
        self.end()?;
        Ok(CaseRead {
            request,
            certificates,
            split,
        })
    }
}
