// The door on a procap text, for C: the call of the desk firmware, as include/procap.h says it. A static library exports only what
// stands in it, so this is not `door`'s own.
#![tactic(auto)]

ghost use Rattle.std.specs.Prelude.{◌≡◌};
ghost use Rattle.procap.specs.Procaps.{request_of};
ghost use Rattle.procap.specs.Outcome.{answer_of};
ghost use Rattle.door.specs.Door.{opening_text, packed};

// [D6, D7] What the door answers, as 256 times the number plus the place.
#[unsafe(no_mangle)]
pub extern "C" fn procap_door(
    text: &[u8],
    who: u64,
    what: u64,
    right: u64,
    moment: u64,
    state: &[u8],
) -> u64
    ensures { result ≡ packed (answer_of (opening_text text.now (request_of who what right) moment state.now)) }
{
    door::on_text::procap_door(text, who, what, right, moment, state)
}
