// What waits to be read of a proof: a small stack, the newest first.
ghost use Rattle.std.specs.Prelude.{◌≡◌, ◌<◌, [], ◌∷◌, length};
ghost use Rattle.steps.specs.Waiting.{popped, most_waiting};

use crate::todo::Todo;
use std::marker::Model;

// How many things may wait: at most one for each level, and one more.
pub(crate) const MOST_WAITING: usize = 33;

// So many things wait; those past the count are of no account.
#[derive(Drop)]
pub(crate) struct Waiting {
    count: usize,
    things: [Todo; MOST_WAITING],
}

impl Model for Waiting {
    ghost use Rattle.std.specs.Prelude.{◌≡◌, ◌≤◌, List, length};
    ghost use Rattle.steps.specs.declared.todo.Todo.{Todo};

    ghost Value = { List Todo };

    ghost use Rattle.steps.specs.Waiting.{newest_first, most_waiting};

    ghost view = { λ w. newest_first w.things w.count };

    ghost invariant = { λ w. (w.count ≤ most_waiting) × (length w.things ≡ most_waiting) };
}

impl Waiting {
    // One thing waits.
    pub(crate) fn with(todo: Todo) -> Waiting
        ensures { result ≡ todo ∷ [] }
    {
        Waiting {
            count: 1,
            things: [todo; MOST_WAITING],
        }
    }

    // One thing more waits.
    pub(crate) fn push(&mut self, todo: Todo)
        requires { length self.old < most_waiting }
        ensures { self.new ≡ todo ∷ self.old }
    {
        self.things[self.count] = todo;
        self.count += 1;
    }

    // The newest of what waits, if something does, waits no more.
    pub(crate) fn pop(&mut self) -> Option<Todo>
        ensures { popped self.old ≡ (result, self.new) }
    {
        self.count = self.count.checked_sub(1)?;
        Some(self.things[self.count])
    }
}
