// Demand 2: a text has one spelling.
ghost use Rattle.std.specs.Prelude.{Bool, ◌≡◌};

use from_c::office::{office_rewrite, office_write};
use from_c::packing::{length_in, number_in};
use text::writer::MOST_TEXT;

// Whether bytes that read are what is written of the procap that they say: always.
#[unsafe(no_mangle)]
pub extern "C" fn kept_demand_2_reading(text: &[u8]) -> bool
    ensures { result ≡ Bool.true }
{
    let mut again = [0u8; MOST_TEXT];
    let rewritten = office_rewrite(text, &mut again);
    if number_in(rewritten) != 0 {
        return true;
    }
    &again[..length_in(rewritten)] == text
}

// Whether what is written of a value reads back, and is written again as it was: always.
#[unsafe(no_mangle)]
pub extern "C" fn kept_demand_2_writing(value: &[u8]) -> bool
    ensures { result ≡ Bool.true }
{
    let mut text = [0u8; MOST_TEXT];
    let written = office_write(value, &mut text);
    if number_in(written) != 0 {
        return true;
    }
    let length = length_in(written);
    let mut again = [0u8; MOST_TEXT];
    let rewritten = office_rewrite(&text[..length], &mut again);
    if number_in(rewritten) != 0 {
        return false;
    }
    &again[..length_in(rewritten)] == &text[..length]
}
