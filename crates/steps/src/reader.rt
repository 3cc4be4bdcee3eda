// The reader of proof bytes: the lent bytes and a place in them, as D77 has it. Every byte of a proof that is read, to see that it is
// well formed or to walk it, is read by one of its steps.
ghost use Rattle.std.specs.Prelude.{◌≡◌, ◌+◌, ◌≤◌, ◌<◌, length, get_or, slice_get, IfSome};
ghost use Rattle.procap.specs.Bytes.{term};
ghost use Rattle.procap.specs.Writable.{TermInForm};

use procap::bytes::{past, term_by};
use procap::fact::Term;
use procap::tag::TermTag;

// The lent bytes of a proof and a place in them.
#[derive(Clone, Copy)]
pub struct Reader<'a> {
    pub proof: &'a [u8],
    pub at: usize,
}

impl<'a> Reader<'a> {
    // The byte at its place, if one is there.
    pub(crate) fn byte(self) -> Option<u8>
        ensures { result ≡ slice_get self.entry.proof.now self.entry.at }
    {
        self.proof.get(self.at).copied()
    }

    // The term at its place and the place after it, if one is there.
    pub(crate) fn term(self) -> Option<(Term, usize)>
        ensures reads { result ≡ term self.entry.proof.now self.entry.at }
        ensures in_form { IfSome result (λ r. TermInForm r.0) }
    {
        let tag = TermTag::try_from(self.byte()?).ok()?;
        term_by(self.proof, tag, self.at + 1)
    }

    // The reader of the same bytes at the place after a byte; past the end it stays.
    fn past(self) -> Reader<'a>
        ensures same { result.proof ≡ self.entry.proof }
        ensures there { self.entry.at < length self.entry.proof.now → result.at ≡ self.entry.at + 1 }
        ensures stays { length self.entry.proof.now ≤ self.entry.at → result.at ≡ self.entry.at }
    {
        Reader {
            proof: self.proof,
            at: past(self.proof, self.at),
        }
    }
}

// The byte after the one at a place of the proof, which is the index of a step 20 or 21 there; 0 past the end.
pub fn index_at(proof: &[u8], at: usize) -> u8
    ensures { result ≡ get_or proof.now (at + 1) 0 }
{
    Reader { proof, at }.past().byte().unwrap_or(0)
}
