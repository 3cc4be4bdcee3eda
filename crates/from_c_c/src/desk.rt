// The desk's calls for C, beside the door on a text.
ghost use Rattle.std.specs.Prelude.{◌≡◌};
ghost use Rattle.procap.specs.Procaps.{request_of};
ghost use Rattle.procap.specs.Outcome.{answer_of};
ghost use Rattle.door.specs.Door.{opening_text};
ghost use Rattle.from_c.specs.Packing.{packed};
ghost use Rattle.from_c.specs.Calls.{value_opening_over, opened_of};

// What the door answers to a procap value, as one number: 12 for bytes that are no value.
#[unsafe(no_mangle)]
pub extern "C" fn desk_door_on_value(
    value: &[u8],
    who: u16,
    what: u16,
    right: u16,
    moment: u64,
    state: &[u8],
) -> u64
    ensures { result ≡ packed (answer_of (value_opening_over value who what right moment state)) 0 }
{
    from_c::desk::desk_door_on_value(value, who, what, right, moment, state)
}

// How many of so many presses in a row go through, all of them with the same procap, at the same moment and in the same state.
#[unsafe(no_mangle)]
pub extern "C" fn desk_presses(
    text: &[u8],
    who: u16,
    what: u16,
    right: u16,
    moment: u64,
    state: &[u8],
    presses: u64,
) -> u64
    ensures { result ≡ opened_of (opening_text text.now (request_of who what right) moment state.now) presses }
{
    from_c::desk::desk_presses(text, who, what, right, moment, state, presses)
}
