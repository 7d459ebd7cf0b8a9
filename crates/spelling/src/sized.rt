// Octets of a fixed number.
ghost use Rattle.std.specs.Prelude.{◌≡◌};
ghost use Rattle.spelling.specs.Sized.{octets_in};

// Exactly N octets.
pub fn octets_in<const N: usize>(octets: &[u8]) -> Option<[u8; N]>
    ensures value { result ≡ octets_in N octets.now }
{
    octets.try_into().ok()
}
