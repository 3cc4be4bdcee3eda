// Where the second part of each step 26 of a proof ends: a table that is lent, with a number for every three bytes. It is found by a
// place of the proof and not by a key, so that a look takes one step; a map would need a heap.
ghost use Rattle.std.specs.Prelude.{◌≡◌, ◌≤◌, get_or};
ghost use Rattle.bl.specs.Steps.{most_proof_bytes};
ghost use Rattle.steps.specs.Ends.{slot};
ghost use Rattle.steps.specs.Todo.{Noted};

use crate::todo::Todo;

// How many numbers it has. A second part begins with three bytes of the proof or more from there on: its tag, and the tags of two times.
pub const MOST_ENDS: usize = 1365;

// Where the second part that begins at a place ends.
pub fn end_in(ends: &[u16], at: usize) -> usize
    ensures { result ≡ get_or ends.now (slot at) 0 }
{
    let slot = at / 3;
    if slot < ends.len() {
        ends[slot] as usize
    } else {
        0
    }
}

// Where the times of a 26 are to be read, its second part has ended.
#[tactic(auto, unfolding(crate::specs::Todo::noted))]
pub(crate) fn note_end(ends: &mut [u16], todo: &Todo, place: usize)
    requires { place ≤ most_proof_bytes }
    ensures { Noted ends todo.now place }
{
    if let Todo::Times(begin) = *todo {
        let slot = begin / 3;
        if slot < ends.len() {
            ends[slot] = place as u16;
        }
    }
}
