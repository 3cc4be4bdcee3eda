// From a procap to its text, and from a refusal to its two lines, in a lent buffer.
ghost use Rattle.std.specs.Prelude.{◌≡◌, length};
ghost use Rattle.std.specs.Result.{result_unwrap_or};
ghost use Rattle.procap.specs.Outcome.{answer_of};
ghost use Rattle.text.specs.Text.{refusal_text};
ghost use Rattle.text.specs.Calls.{fitting, writing, Left, Wrote};

use crate::spell::Pen;
use procap::answer::Answer;
use procap::procap::Procap;
use procap::writable::can_be_written;

// How long a text is at the most.
pub const MOST_TEXT: usize = 1_223;

// The answer of writing a text, and the text's length. No `Result`, since a write that is refused gives the length 0.
#[derive(Clone, Copy)]
pub struct WrittenText {
    pub answer: Answer,
    pub length: usize,
}

// Writes the procap's text at the front of the buffer: 12 for a value that cannot be written, then 13 for a buffer that is too short.
pub fn write_text(procap: Procap, out: &mut [u8]) -> WrittenText
    ensures { Wrote (writing procap (length out.old)) out.old result out.new }
{
    told(written(procap, out))
}

// Writes the two lines of a refusal at the front of the buffer: 13 for a buffer that is shorter than they are.
pub fn write_refusal(answer: Answer, out: &mut [u8]) -> WrittenText
    ensures { Wrote (fitting (refusal_text answer) (length out.old)) out.old result out.new }
{
    let mut pen = Pen::new();
    pen.refusal(answer);
    told(hand_over(pen.text(), out))
}

// The length of the procap's text, which is written at the front of the buffer, or the answer that refuses it.
fn written(procap: Procap, out: &mut [u8]) -> Result<usize, Answer>
    ensures { Left (writing procap (length out.old)) out.old result out.new }
{
    if !can_be_written(procap) {
        return Err(Answer::ProcapMalformed);
    }
    let mut pen = Pen::new();
    pen.procap(&procap);
    hand_over(pen.text(), out)
}

// Copies a text to the front of the buffer, and gives its length: 13 where it does not fit.
fn hand_over(text: &[u8], out: &mut [u8]) -> Result<usize, Answer>
    ensures { Left (fitting text.now (length out.old)) out.old result out.new }
{
    if out.len() < text.len() {
        return Err(Answer::BufferShort);
    }
    out[..text.len()].copy_from_slice(text);
    Ok(text.len())
}

// The answer and the length that are handed back for what a write came to.
#[tactic(auto, unfolding(procap::specs::Outcome::answer_of))]
fn told(written: Result<usize, Answer>) -> WrittenText
    ensures answer { result.answer ≡ answer_of written }
    ensures length { result.length ≡ result_unwrap_or written 0 }
{
    match written {
        Ok(length) => WrittenText {
            answer: Answer::Granted,
            length,
        },
        Err(answer) => WrittenText { answer, length: 0 },
    }
}
