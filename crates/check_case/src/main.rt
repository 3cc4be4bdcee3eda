// [D53, D64, D66, D67] The program `check`: a case from standard input, and what is printed for it to standard output.
#![tactic(auto)]

ghost use Rattle.std.specs.Prelude.{◌≤◌, length};

use cases::answering::{MOST_INPUT, answer_case};
use std::io::{Read, Write};
use text::writer::MOST_TEXT;

fn main(rt: HostRuntime) {
    // [D65] One byte more than a case may have, so that a longer input is noticed.
    let mut input = [0u8; MOST_INPUT + 1];
    let count = read_full(&mut rt.stdin(), &mut input);
    let mut out = [0u8; MOST_TEXT];
    let written = answer_case(&input[..count], &mut out);
    if rt.stdout().write_all(&out[..written.length]).is_err() {
        let _ = rt
            .stderr()
            .write_all(b"check: the answer could not be written\n");
    }
}

// Reads until the buffer is full, the input ends or a read fails, and answers how many bytes it put at the front.
// A loop: `read_to_end` of the library reads into a Vec, which needs a heap, and `read_exact` does not tell how many bytes came.
fn read_full<R: Read>(reader: &mut R, buffer: &mut [u8]) -> usize
    ensures { result ≤ length buffer.new }
{
    let mut done: usize = 0;
    while done < buffer.len() {
        match reader.read(&mut buffer[done..]) {
            Ok(0) | Err(_) => break,
            Ok(count) => done += count,
        }
    }
    done
}
