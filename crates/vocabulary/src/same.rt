// What a list needs of the places on it.
ghost use Rattle.std.specs.Prelude.{◌≡◌, Decides};
ghost use Rattle.vocabulary.specs.Same.{no_plmn, no_lai};
ghost use Rattle.vocabulary.specs.Told.{plmn_told, lai_told};

use crate::{Lai, Plmn};

// A place that may stand on a list. Its `==` tells exactly whether two are the same.
pub trait Place: Eq + Copy {
    ghost unused: { Self };

    // What stands in a slot that has no entry.
    fn unused() -> Self
        ensures value { result ≡ unused };

    ghost told: { (one other : Self) → Decides (Self.PartialEq.eq one other) (one ≡ other) };
}

impl Place for Plmn {
    ghost unused = { no_plmn };

    ghost told = { plmn_told };

    fn unused() -> Plmn {
        Plmn {
            mcc1: 0,
            mcc2: 0,
            mcc3: 0,
            mnc1: 0,
            mnc2: 0,
            mnc3: None,
        }
    }
}

impl Place for Lai {
    ghost unused = { no_lai };

    ghost told = { lai_told };

    fn unused() -> Lai {
        Lai {
            plmn: Plmn::unused(),
            lac: 0,
        }
    }
}
