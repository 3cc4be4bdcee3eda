// Whether bytes are a proof. No function calls itself: what is still to be read waits on a small stack.
ghost use Rattle.procap.specs.Tells.{Tells};
ghost use Rattle.steps.specs.Ends.{IsProof, EndsTold};

use crate::ends::note_end;
use crate::todo::{Opened, Room, Source, Todo};
use crate::waiting::Waiting;

// How many bytes a proof may have.
const MOST_PROOF_BYTES: usize = 4096;
// How many steps 2C it may have.
const MOST_STATES: usize = 16;

// Whether the bytes are a proof over so many certificates; where they are, the table has where the second part of each 26 ends. What
// waits to be read grows as it is read, so the loop goes on while something waits.
pub fn well_formed(proof: &[u8], certificates: usize, ends: &mut [u16]) -> bool
    ensures tells { Tells result (IsProof proof certificates) }
    ensures told { EndsTold proof certificates ends }
{
    if proof.len() > MOST_PROOF_BYTES {
        return false;
    }
    let source = Source {
        proof,
        certificates,
    };
    let mut waiting = Waiting::with(Todo::Checking(Room::whole()));
    let mut place: usize = 0;
    let mut states: usize = 0;
    while let Some(todo) = waiting.pop() {
        note_end(ends, &todo, place);
        let Some(opened) = source.open(todo, place) else {
            return false;
        };
        match opened {
            Opened::Leaf {
                next,
                states: found,
            } => {
                place = next;
                states += found;
            }
            Opened::One { next, part } => {
                place = next;
                waiting.push(part);
            }
            Opened::Two { next, first, later } => {
                place = next;
                waiting.push(later);
                waiting.push(first);
            }
        }
    }
    place == proof.len() && states <= MOST_STATES
}
