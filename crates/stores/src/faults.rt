// Why a store refuses.
ghost use Rattle.std.specs.Prelude.{◌≡◌};
ghost use Rattle.stores.specs.Numbers.{store_refusal};

use vocabulary::{Layer, Refusal};

#[derive(Clone, Copy, PartialEq, Eq)]
pub enum StoreFault {
    // The slot is empty: nothing can be asked, written or ejected.
    NoCard,
    // A card is in: no other can be loaded.
    SlotFull,
}

// The number, the layer and the octet that the host is told: the same for both.
impl From<StoreFault> for Refusal {
    ghost from_gives = { λ fault refusal. refusal ≡ store_refusal fault };

    fn from(fault: StoreFault) -> Refusal {
        match fault {
            StoreFault::NoCard | StoreFault::SlotFull => Refusal {
                number: 3,
                layer: Layer::Store,
                octet: 0,
            },
        }
    }
}
