// Demand 3: what is issued opens exactly where the direct check accepts, and where nothing is issued nothing is accepted.
ghost use Rattle.std.specs.Prelude.{Bool, ◌≡◌};

use door::on_text::procap_door;
use from_c::office::{office_direct, office_verify};
use from_c::packing::{length_in, number_in};
use text::writer::MOST_TEXT;

// Whether verify, the direct check and the door answer as demand 3 says, at this press: always. These are C's own parameters.
#[unsafe(no_mangle)]
pub extern "C" fn kept_demand_3(
    who: u16,
    what: u16,
    right: u16,
    records: &[u8],
    buffer: &[u8],
    pairs: &[u8],
    proof: &[u8],
    moment: u64,
    state: &[u8],
) -> bool
    ensures { result ≡ Bool.true }
{
    let mut text = [0u8; MOST_TEXT];
    let issued = office_verify(who, what, right, records, buffer, pairs, proof, &mut text);
    let checked = office_direct(
        who, what, right, records, buffer, pairs, proof, moment, state,
    );
    let accepted = number_in(checked) == 0;
    if number_in(issued) != 0 {
        return !accepted;
    }
    let length = length_in(issued);
    let pressed = procap_door(
        &text[..length],
        who as u64,
        what as u64,
        right as u64,
        moment,
        state,
    );
    accepted == (pressed == 0)
}
