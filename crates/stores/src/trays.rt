// Stores that keep a card whole: they answer and are written alike, whatever they keep it as.
ghost use Rattle.std.specs.Prelude.{◌≡◌};
ghost use Rattle.stores.specs.Slots.{Slot, asked, needing, Changed};

use crate::{CardReader, CardStore, StoreFault};
use card::{Card, PacketRecord, Record};
use identities::Imsi;
use lists::PlmnBar;
use vocabulary::Lai;

// What a card, or none, is put into.
pub trait Tray {
    ghost slot: { Self → Slot };

    fn card(&self) -> Option<Card>
        ensures value { result ≡ slot self.now };

    fn put(&mut self, card: Option<Card>)
        ensures after { slot self.new ≡ card };
}

fn held<T: Tray>(tray: &T) -> Result<Card, StoreFault>
    ensures value { result ≡ asked (λ c. c) (T.Tray.slot tray.now) }
{
    tray.card().ok_or(StoreFault::NoCard)
}

// Puts another card in the place of the one that is there.
fn change<T: Tray, F: FnOnce(Card) -> Card>(tray: &mut T, made: F) -> Result<(), StoreFault>
    requires { F.IsAlwaysCallable made }
    ensures answer { result ≡ needing (T.Tray.slot tray.old) }
    ensures after { Changed (F.post made) (T.Tray.slot tray.old) (T.Tray.slot tray.new) }
{
    let card = held(tray)?;
    tray.put(Some(made(card)));
    Ok(())
}

impl<T: Tray> CardReader for T {
    ghost slot = { T.Tray.slot };

    fn has_card(&self) -> bool {
        self.card().is_some()
    }

    fn imsi(&self) -> Result<Imsi, StoreFault> {
        Ok(held(self)?.imsi)
    }

    fn packet(&self) -> Result<PacketRecord, StoreFault> {
        Ok(held(self)?.packet)
    }

    fn circuit(&self) -> Result<Record<Lai>, StoreFault> {
        Ok(held(self)?.circuit)
    }

    fn forbidden(&self) -> Result<PlmnBar, StoreFault> {
        Ok(held(self)?.forbidden)
    }
}

// The writes name their part and no more; the interface has one for each.
impl<T: Tray> CardStore for T {
    fn load(&mut self, card: Card) -> Result<(), StoreFault> {
        if self.has_card() {
            return Err(StoreFault::SlotFull);
        }
        self.put(Some(card));
        Ok(())
    }

    fn eject(&mut self) -> Result<(), StoreFault> {
        held(self)?;
        self.put(None);
        Ok(())
    }

    fn write_imsi(&mut self, part: Imsi) -> Result<(), StoreFault> {
        change(self, |card| Card { imsi: part, ..card })
    }

    fn write_packet(&mut self, part: PacketRecord) -> Result<(), StoreFault> {
        change(
            self,
            |card| Card {
                packet: part,
                ..card
            },
        )
    }

    fn write_circuit(&mut self, part: Record<Lai>) -> Result<(), StoreFault> {
        change(
            self,
            |card| Card {
                circuit: part,
                ..card
            },
        )
    }

    fn write_forbidden(&mut self, part: PlmnBar) -> Result<(), StoreFault> {
        change(
            self,
            |card| Card {
                forbidden: part,
                ..card
            },
        )
    }
}
