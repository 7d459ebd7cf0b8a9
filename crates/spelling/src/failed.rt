// Why a text gives nothing.
ghost use Rattle.std.specs.Prelude.{◌≡◌, Ok, Err, alloc_error};
ghost use Rattle.spelling.specs.declared.failed.Failed.TheVariants.{Bad, Memory};

use std::alloc::{AllocError, AllocFailed};

// The text is bad, or memory is short. Each kind of fault is converted by an `impl` of its own, since one for all kinds would
// overlap that for `AllocError`.
#[derive(Clone, Copy, PartialEq, Eq, Debug)]
pub enum Failed<F> {
    Bad(F),
    Memory(AllocError),
}

impl<F: Drop> Failed<F> {
    // Why the text is bad, unless memory is short: for who tells a bad text as a value.
    pub fn reason(self) -> Result<F, AllocError>
        ensures value { result ≡ elim self [ Bad reason ↦ Ok reason | Memory error ↦ Err error ] }
    {
        match self {
            Failed::Bad(reason) => Ok(reason),
            Failed::Memory(error) => Err(error),
        }
    }
}

impl<F> From<AllocError> for Failed<F> {
    ghost from_gives = { λ error failed. failed ≡ Memory error };

    fn from(error: AllocError) -> Failed<F> {
        Failed::Memory(error)
    }
}

impl<F, T: Drop> From<AllocFailed<T>> for Failed<F> {
    ghost from_gives = { λ _ failed. failed ≡ Memory alloc_error };

    fn from(_: AllocFailed<T>) -> Failed<F> {
        Failed::Memory(AllocError)
    }
}
