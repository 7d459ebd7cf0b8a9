// A hexadecimal digit.
ghost use Rattle.std.specs.Prelude.{◌≡◌, ◌+◌, ◌*◌};
ghost use Rattle.spelling.specs.Octets.{digit_of};

use std::marker::Model;

// Its value, below 16.
#[derive(Clone, Copy)]
pub(crate) struct Digit {
    value: u8,
}

impl Model for Digit {
    ghost use Rattle.std.specs.Prelude.{ℕ, ◌<◌};

    ghost Value = { ℕ };

    ghost view = { λ digit. digit.value };

    ghost invariant = { λ digit. digit.value < 16 };

    ghost inverse = { λ value. record { value = value } };
}

impl Digit {
    // The octet of this digit and the one behind it.
    pub(crate) fn octet(self, low: Digit) -> u8
        ensures value { result ≡ self * 16 + low }
    {
        self.value * 16 + low.value
    }
}

pub(crate) fn digit_of(character: u8) -> Option<Digit>
    ensures value { result ≡ digit_of character }
{
    let value = match character {
        b'0'..=b'9' => character - b'0',
        b'A'..=b'F' => character - b'A' + 10,
        b'a'..=b'f' => character - b'a' + 10,
        _ => return None,
    };
    Some(Digit { value })
}
