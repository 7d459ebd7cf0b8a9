// The parts of a card that may be none.
ghost use Rattle.std.specs.Prelude.{◌≡◌, Option};
ghost use Rattle.vocabulary.specs.Places.{lai_in, rai_in};
ghost use Rattle.identities.specs.Identities.{tmsi_when, signature_when};
ghost use Rattle.std.specs.Option.{ok_or};
ghost use Rattle.card.specs.Given.{part_of};

use crate::Unlawful;
use identities::{Signature, Tmsi};
use vocabulary::{Lai, Rai};

// What a part is read of: bits, or octets.
pub(crate) trait Part: Sized {
    type Given;

    ghost read: { Self.Given → Option Self };

    fn read(given: Self::Given) -> Option<Self>
        ensures value { result ≡ read given };
}

impl Part for Tmsi {
    type Given = u32;

    ghost read = { tmsi_when };

    fn read(given: u32) -> Option<Tmsi> {
        Tmsi::new(given)
    }
}

impl Part for Signature {
    type Given = u32;

    ghost read = { signature_when };

    fn read(given: u32) -> Option<Signature> {
        Signature::new(given)
    }
}

impl Part for Rai {
    type Given = [u8; 6];

    ghost read = { rai_in };

    fn read(given: [u8; 6]) -> Option<Rai> {
        Rai::from_octets(given)
    }
}

impl Part for Lai {
    type Given = [u8; 5];

    ghost read = { lai_in };

    fn read(given: [u8; 5]) -> Option<Lai> {
        Lai::from_octets(given)
    }
}

// What is given as a value has to be one, or the fault is told; a mark is no value. A part may be none by the rules, so `Option`
// stands in the result. Matched, since with `map` and `transpose` the proof of the fault did not close.
pub(crate) fn part_of<P: Part>(
    given: Option<P::Given>,
    fault: Unlawful,
) -> Result<Option<P>, Unlawful>
    ensures value { result ≡ ok_or (part_of P.read given) fault }
{
    match given {
        Some(given) => Ok(Some(P::read(given).ok_or(fault)?)),
        None => Ok(None),
    }
}
