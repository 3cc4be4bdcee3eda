// What is still to be read of a proof: a thing is opened at its place, and its parts take its place.
ghost use Rattle.std.specs.Prelude.{◌≡◌, ◌+◌, ◌≤◌, ◌<◌, IfSome};
ghost use Rattle.bl.specs.Steps.{most_proof_levels};
ghost use Rattle.steps.specs.Rooms.{Room as RoomOf, whole_room, inner, assuming};
ghost use Rattle.steps.specs.Todo.{OpensIndex, OpensInferring, OpensChecking, OpensTimes, Opens};

use crate::reader::Reader;
use crate::{MOST_PROOF_LEVELS, check_tag_at, infer_tag_at, term_if_any, time_if_any};
use bl::{CheckTag, InferTag};
use procap::bytes::past;
use std::marker::Model;

// How many levels a step may have, and how many assumptions stand around it; together they are within the levels of a proof.
#[derive(Clone, Copy)]
pub(crate) struct Room {
    levels: u64,
    assumptions: u64,
}

impl Model for Room {
    ghost use Rattle.std.specs.Prelude.{◌+◌, ◌≤◌};
    ghost use Rattle.bl.specs.Steps.{most_proof_levels};
    ghost use Rattle.steps.specs.Rooms.{Room as RoomOf};

    ghost Value = { RoomOf };

    ghost view = { λ r. record { levels = r.levels; assumptions = r.assumptions } };

    ghost inverse = { λ r. record { levels = r.levels; assumptions = r.assumptions } };

    ghost invariant = { λ r. r.levels + r.assumptions ≤ most_proof_levels };
}

impl Room {
    // The room of a whole proof: all its levels, and no assumption.
    pub(crate) fn whole() -> Room
        ensures { result ≡ whole_room }
    {
        Room {
            levels: MOST_PROOF_LEVELS,
            assumptions: 0,
        }
    }

    // The room of the parts of a step: a level less, if one is left.
    fn inner(self) -> Option<Room>
        ensures less { result ≡ inner self }
        ensures spare { IfSome result (λ r. r.levels + r.assumptions < most_proof_levels) }
    {
        Some(Room {
            levels: self.levels.checked_sub(1)?,
            assumptions: self.assumptions,
        })
    }

    // The same with one assumption more.
    fn assuming(self) -> Room
        requires { self.levels + self.assumptions < most_proof_levels }
        ensures { result ≡ assuming self }
    {
        Room {
            levels: self.levels,
            assumptions: self.assumptions + 1,
        }
    }

    // How many assumptions stand around.
    fn around(self) -> usize
        ensures { result ≡ self.assumptions }
    {
        self.assumptions as usize
    }
}

// The two times of the 26 whose second part began at a place; a step that must infer, or one that checks; the second part of a 26,
// which checks, and its times; two steps that check.
#[derive(Clone, Copy)]
pub(crate) enum Todo {
    Times(usize),
    Inferring(Room),
    Checking(Room),
    Second(Room),
    Both(Room),
}

// What is there at a place goes on at a next place, and leaves nothing to be read (with so many steps 2C), one part, or two.
#[derive(Clone, Copy)]
pub(crate) enum Opened {
    Leaf {
        next: usize,
        states: usize,
    },
    One {
        next: usize,
        part: Todo,
    },
    Two {
        next: usize,
        first: Todo,
        later: Todo,
    },
}

// The bytes of a proof, and over how many certificates it is.
#[derive(Clone, Copy)]
pub(crate) struct Source<'a> {
    pub proof: &'a [u8],
    pub certificates: usize,
}

impl<'a> Source<'a> {
    // What is to be read at a place, opened; nothing, where no such thing stands there.
    pub(crate) fn open(&self, todo: Todo, at: usize) -> Option<Opened>
        ensures { Opens self.now todo at result }
    {
        match todo {
            Todo::Times(_) => open_times(self.proof, at),
            Todo::Inferring(room) => {
                let room = room.inner()?;
                let tag = infer_tag_at(self.proof, at)?;
                self.open_inferring(room, tag, past(self.proof, at))
            }
            Todo::Checking(room) => self.open_checking(room, at),
            Todo::Second(room) => {
                let times = Todo::Times(at);
                Some(Opened::Two {
                    next: at,
                    first: Todo::Checking(room),
                    later: times,
                })
            }
            Todo::Both(room) => Some(Opened::Two {
                next: at,
                first: Todo::Checking(room),
                later: Todo::Checking(room),
            }),
        }
    }

    // A step that infers, by its tag and the place after it; its parts have so much room.
    fn open_inferring(&self, room: Room, tag: InferTag, at: usize) -> Option<Opened>
        ensures { OpensInferring self.now room tag at result }
    {
        let part = Todo::Inferring(room);
        match tag {
            InferTag::LocalTag => open_index(self.proof, room.around(), at),
            InferTag::CertificateTag => open_index(self.proof, self.certificates, at),
            InferTag::FirstTag | InferTag::SecondTag => Some(Opened::One { next: at, part }),
            InferTag::ApplyTag => Some(Opened::Two {
                next: at,
                first: part,
                later: Todo::Second(room),
            }),
            InferTag::InstanceTag => {
                let (_, next) = term_if_any(self.proof, at)?;
                Some(Opened::One { next, part })
            }
        }
    }

    // A step that checks, at its tag.
    fn open_checking(&self, room: Room, at: usize) -> Option<Opened>
        ensures { OpensChecking self.now room at result }
    {
        let room = room.inner()?;
        let more = room.assuming();
        let tag = check_tag_at(self.proof, at)?;
        let next = past(self.proof, at);
        let part = Todo::Checking(room);
        let inferring = Todo::Inferring(room);
        match tag {
            CheckTag::TopStepTag | CheckTag::OrderStepTag => Some(Opened::Leaf { next, states: 0 }),
            CheckTag::StateTag => Some(Opened::Leaf { next, states: 1 }),
            CheckTag::AtInTag | CheckTag::SaysInTag | CheckTag::OrLeftTag | CheckTag::OrRightTag =>
                { Some(Opened::One { next, part }) }
            CheckTag::FalsityOutTag => Some(Opened::One {
                next,
                part: inferring,
            }),
            CheckTag::PairTag => Some(Opened::Two {
                next,
                first: part,
                later: Todo::Checking(room),
            }),
            CheckTag::AtOutTag | CheckTag::SaysOutTag => Some(Opened::Two {
                next,
                first: inferring,
                later: Todo::Checking(more),
            }),
            CheckTag::OrOutTag => Some(Opened::Two {
                next,
                first: inferring,
                later: Todo::Both(more),
            }),
            CheckTag::InferredTag(tag) => self.open_inferring(room, tag, next),
        }
    }
}

// An index below a limit.
fn open_index(proof: &[u8], limit: usize, at: usize) -> Option<Opened>
    ensures { OpensIndex proof limit at result }
{
    let index = Reader { proof, at }.byte()?;
    if usize::from(index) < limit {
        Some(Opened::Leaf {
            next: at + 1,
            states: 0,
        })
    } else {
        None
    }
}

// Two times.
fn open_times(proof: &[u8], at: usize) -> Option<Opened>
    ensures { OpensTimes proof at result }
{
    let (_, between) = time_if_any(proof, at)?;
    let (_, next) = time_if_any(proof, between)?;
    Some(Opened::Leaf { next, states: 0 })
}
