// The decimal digits that a text spells.
ghost use Rattle.std.specs.Prelude.{◌≡◌, map, IfOk};
ghost use Rattle.spelling.specs.Digits.{digit_value};

use std::alloc::{AllocError, Global};

// A digit's value; the filler F, which no digit is, for any other character.
fn digit_value(character: u8) -> u8
    ensures value { result ≡ digit_value character }
{
    match character {
        b'0'..=b'9' => character - b'0',
        _ => 15,
    }
}

// The digits of a text, one for each character.
pub fn digits_in(heap: Global, text: &[u8]) -> Result<Vec<u8>, AllocError>
    ensures value { IfOk result (λ v. v.items ≡ map digit_value text.now) }
{
    text.iter()
        .map(|character| digit_value(*character))
        .collect(heap)
}
