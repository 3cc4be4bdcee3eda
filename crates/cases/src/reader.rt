// A case that is read line by line.
ghost use Rattle.std.specs.Prelude.{◌≡◌, ◌*◌, ◌+◌, ◌<◌, ◌≤◌, ◌++◌, IfOk, length};
ghost use Rattle.procap.specs.Writable.{largest_name};
ghost use Rattle.text.specs.Line.{line_to};
ghost use Rattle.text.specs.LinesInARow.{one_line};
ghost use Rattle.text.specs.RequestLines.{request_lines};
ghost use Rattle.cases.specs.Case.{most_input};
ghost use Rattle.cases.specs.CaseLines.{time_line, hex_line};
ghost use Rattle.cases.specs.Found.{ReadSoFar, begun, gone_to, GoesOn, Told, PairsPut, Ends};

use crate::hex::pair_at;
use crate::lines::time_line;
use front::Front;
use procap::procap::Request;
use procap::time::Time;
use std::marker::Model;
use text::line::{BrokenLine, after, line};
use text::request::request_at;

// How many bytes can be spelled in hex by the longest case.
const MOST_BYTES: usize = 32_768;

// A case that is being read: the number of its next line, where this begins, and the bytes that the lines of hex before it say.
#[derive(Drop)]
pub(crate) struct CaseReader<'a> {
    input: &'a [u8],
    line: usize,
    at: usize,
    bytes: Front<u8, MOST_BYTES>,
}

// Two places of the input are passed for each byte, so that there is room for the next one; and one for each line.
impl<'a> Model for CaseReader<'a> {
    ghost Value = { ReadSoFar };

    ghost view = { λ r. record { input = r.input.now; line = r.line; at = r.at; bytes = r.bytes } };

    ghost invariant = { λ r. (length r.input.now ≤ most_input) × (r.at ≤ length r.input.now) × (r.line ≤ r.at + 4) × (2 * length r.bytes ≤ r.at) };
}

impl<'a> CaseReader<'a> {
    // At the first line.
    pub(crate) fn new(input: &'a [u8]) -> CaseReader<'a>
        requires { length input.now ≤ most_input }
        ensures { result ≡ begun input.now }
    {
        CaseReader {
            input,
            line: 1,
            at: 0,
            bytes: Front::new(0),
        }
    }

    // The bytes that the lines of hex say so far, one after another.
    pub(crate) fn bytes(&self) -> &[u8]
        ensures { result.now ≡ self.now.bytes }
    {
        self.bytes.lent()
    }

    // The three lines of the request, with which a case begins.
    pub(crate) fn request(&mut self) -> Result<Request, BrokenLine>
        requires { self.old.line ≡ 1 }
        ensures { GoesOn request_lines self.old self.new (Told self.old self.new) result }
    {
        let (request, next) = request_at(self.input, self.at)?;
        self.line = 4;
        self.at = next;
        Ok(request)
    }

    // The line of a word and a number up to a limit.
    pub(crate) fn number(&mut self, word: &[u8], limit: u64) -> Result<u64, BrokenLine>
        requires { limit ≤ largest_name }
        ensures reads { GoesOn (λ input. one_line (line_to input word.now limit)) self.old self.new (Told self.old self.new) result }
        ensures bound { IfOk result (λ n. n ≤ limit) }
    {
        let (number, next) = line(self.input, self.at, word, limit).ok_or(BrokenLine(self.line))?;
        self.go_to(next);
        Ok(number)
    }

    // The line of a word and a time.
    pub(crate) fn time(&mut self, word: &[u8]) -> Result<Time, BrokenLine>
        ensures { GoesOn (λ input. one_line (time_line input word.now)) self.old self.new (Told self.old self.new) result }
    {
        let (time, next) = time_line(self.input, self.at, word).ok_or(BrokenLine(self.line))?;
        self.go_to(next);
        Ok(time)
    }

    // The line of a word and of bytes in hex, which are put behind those before.
    pub(crate) fn hex(&mut self, word: &[u8]) -> Result<(), BrokenLine>
        ensures { GoesOn (λ input. one_line (hex_line input word.now)) self.old self.new (λ bytes _. self.new.bytes ≡ self.old.bytes ++ bytes) result }
    {
        let broken = BrokenLine(self.line);
        self.at = after(self.input, self.at, word).ok_or(broken)?;
        self.pairs();
        let line_end = after(self.input, self.at, b"\n").ok_or(broken)?;
        self.go_to(line_end);
        Ok(())
    }

    // Nothing more: else the line that stands there breaks the form.
    pub(crate) fn end(&self) -> Result<(), BrokenLine>
        ensures { Ends self.now result }
    {
        if self.at == self.input.len() {
            Ok(())
        } else {
            Err(BrokenLine(self.line))
        }
    }

    // Puts the bytes that pairs of hex digits say behind those before, as far as the pairs go. The loop ends at the first that is none.
    fn pairs(&mut self)
        ensures reads { PairsPut self.old.input self.old.at self.old.bytes self.new.at self.new.bytes }
        ensures same { (self.new.input ≡ self.old.input) × (self.new.line ≡ self.old.line) }
    {
        while let Some(byte) = pair_at(self.input, self.at) {
            self.bytes.push(byte);
            self.at += 2;
        }
    }

    // Goes on to the next line, which begins at a place.
    fn go_to(&mut self, next: usize)
        requires further { self.old.at < next }
        requires inside { next ≤ length self.old.input }
        ensures { self.new ≡ gone_to self.old next }
    {
        self.line += 1;
        self.at = next;
    }
}
