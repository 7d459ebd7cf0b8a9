// The items of a part: numbers in base ten, octets in hexadecimal, and `-` for none.
ghost use Rattle.std.specs.Prelude.{◌≡◌, IfErr};
ghost use Rattle.std.specs.Option.{ok_or};
ghost use Rattle.std.specs.Str.Parse.{ParsesUnsigned};
ghost use Rattle.spelling.specs.Failed.{UnlessShort};
ghost use Rattle.spelling.specs.Octets.{octets_or_none};
ghost use Rattle.spelling.specs.Sized.{octets_in};
ghost use Rattle.card_lines.specs.Items.{OctetsOrDash, identity_bits, signature_bits};

use crate::BadCommand;
use spelling::{Failed, octets_in, octets_or_none};
use std::alloc::Global;

// Reads items; what is told of an item that is none is the same for all items of a part.
#[derive(Clone, Copy)]
pub(crate) struct Items {
    pub heap: Global,
    pub fault: BadCommand,
}

impl Items {
    // A number in base ten, as the library reads one.
    pub(crate) fn number(self, text: &str) -> Result<u8, BadCommand>
        ensures value { ParsesUnsigned 8 10 text.now result }
        ensures fault { IfErr result (λ fault. fault ≡ self.fault) }
    {
        text.parse().ok().ok_or(self.fault)
    }

    // Octets that have to be there.
    pub(crate) fn octets<const N: usize>(self, text: &str) -> Result<[u8; N], Failed<BadCommand>>
        ensures value { UnlessShort result (λ x. x ≡ ok_or (octets_in N (octets_or_none text.now)) self.fault) }
    {
        let octets = octets_or_none(self.heap, text.as_bytes())?;
        Ok(octets_in(octets.as_slice()).ok_or(self.fault)?)
    }

    // Octets or `-`: a card may have none, so that none is a value here and no failure.
    pub(crate) fn octets_or_dash<const N: usize>(
        self,
        text: &str,
    ) -> Result<Option<[u8; N]>, Failed<BadCommand>>
        ensures value { UnlessShort result (OctetsOrDash N text.now self.fault) }
    {
        match text {
            "-" => Ok(None),
            text => Ok(Some(self.octets(text)?)),
        }
    }
}

// The bits of a TMSI or a P-TMSI.
pub(crate) fn identity_bits(octets: [u8; 4]) -> u32
    ensures value { result ≡ identity_bits octets }
{
    u32::from_be_bytes(octets)
}

// The bits of a P-TMSI signature.
pub(crate) fn signature_bits(octets: [u8; 3]) -> u32
    ensures value { result ≡ signature_bits octets }
{
    let [a, b, c] = octets;
    u32::from_be_bytes([0, a, b, c])
}
