// The three lines of a request, which a procap text and a case have alike.
ghost use Rattle.text.specs.RequestLines.{request_lines};
ghost use Rattle.text.specs.Places.{RequestReads};

use crate::line::{BrokenLine, line};
use procap::procap::Request;
use procap::writable::LARGEST_NAME;

// The request in the three lines at a place and the place after them, or which of them breaks the form, the first being 1.
pub fn request_at(text: &[u8], at: usize) -> Result<(Request, usize), BrokenLine>
    ensures { RequestReads (request_lines text.now 1 at) result }
{
    let (who, after_who) = line(text, at, b"who=", LARGEST_NAME).ok_or(BrokenLine(1))?;
    let (what, after_what) = line(text, after_who, b"what=", LARGEST_NAME).ok_or(BrokenLine(2))?;
    let (right, next) = line(text, after_what, b"right=", LARGEST_NAME).ok_or(BrokenLine(3))?;
    let request = Request {
        who: who as u16,
        what: what as u16,
        right: right as u16,
    };
    Ok((request, next))
}
