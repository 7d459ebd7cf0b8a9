// The causes of a reject by their numbers.
ghost use Rattle.std.specs.Prelude.{◌≡◌};
ghost use Rattle.frames.specs.Causes.{cause_of, cause_number};

use crate::Cause;

// The cause that an octet names; its number is the octet again.
impl From<u8> for Cause {
    ghost from_gives = { λ octet cause. (cause ≡ cause_of octet) × (cause_number cause ≡ octet) };

    fn from(octet: u8) -> Cause {
        match octet {
            2 => Cause::ImsiUnknownInHlr,
            3 => Cause::IllegalMs,
            6 => Cause::IllegalMe,
            7 => Cause::GprsNotAllowed,
            8 => Cause::GprsAndNonGprsNotAllowed,
            9 => Cause::IdentityCannotBeDerived,
            10 => Cause::ImplicitlyDetached,
            11 => Cause::PlmnNotAllowed,
            12 => Cause::LocationAreaNotAllowed,
            13 => Cause::RoamingNotAllowed,
            14 => Cause::GprsNotAllowedInPlmn,
            15 => Cause::NoSuitableCells,
            other => Cause::Other(other),
        }
    }
}

impl From<Cause> for u8 {
    ghost from_gives = { λ cause octet. octet ≡ cause_number cause };

    fn from(cause: Cause) -> u8 {
        match cause {
            Cause::ImsiUnknownInHlr => 2,
            Cause::IllegalMs => 3,
            Cause::IllegalMe => 6,
            Cause::GprsNotAllowed => 7,
            Cause::GprsAndNonGprsNotAllowed => 8,
            Cause::IdentityCannotBeDerived => 9,
            Cause::ImplicitlyDetached => 10,
            Cause::PlmnNotAllowed => 11,
            Cause::LocationAreaNotAllowed => 12,
            Cause::RoamingNotAllowed => 13,
            Cause::GprsNotAllowedInPlmn => 14,
            Cause::NoSuitableCells => 15,
            Cause::Other(number) => number,
        }
    }
}
