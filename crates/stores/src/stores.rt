// The interface of a card store. Its meaning is a slot, which is empty or holds a card.
ghost use Rattle.std.specs.Prelude.{◌≡◌, None};
ghost use Rattle.std.specs.Option.{is_some};
ghost use Rattle.stores.specs.Slots.{Slot, asked, loading, loaded, needing, written, put_imsi, put_packet, put_circuit, put_forbidden};

use crate::StoreFault;
use card::{Card, PacketRecord, Record};
use identities::Imsi;
use lists::PlmnBar;
use vocabulary::Lai;

// A store that can be asked. A question changes nothing; all but the first are refused exactly if there is no card.
pub trait CardReader {
    ghost slot: { Self → Slot };

    fn has_card(&self) -> bool
        ensures answer { result ≡ is_some (slot self.now) };

    fn imsi(&self) -> Result<Imsi, StoreFault>
        ensures answer { result ≡ asked (λ c. c.imsi) (slot self.now) };

    fn packet(&self) -> Result<PacketRecord, StoreFault>
        ensures answer { result ≡ asked (λ c. c.packet) (slot self.now) };

    fn circuit(&self) -> Result<Record<Lai>, StoreFault>
        ensures answer { result ≡ asked (λ c. c.circuit) (slot self.now) };

    fn forbidden(&self) -> Result<PlmnBar, StoreFault>
        ensures answer { result ≡ asked (λ c. c.forbidden) (slot self.now) };
}

// A store that can be written, too. Loading is refused exactly if there is a card, the other calls exactly if there is none;
// a refusal changes nothing. What was loaded or written is what every later question answers.
pub trait CardStore: CardReader {
    fn load(&mut self, card: Card) -> Result<(), StoreFault>
        ensures answer { result ≡ loading (Self.CardReader.slot self.old) }
        ensures after { Self.CardReader.slot self.new ≡ loaded card (Self.CardReader.slot self.old) };

    fn eject(&mut self) -> Result<(), StoreFault>
        ensures answer { result ≡ needing (Self.CardReader.slot self.old) }
        ensures after { Self.CardReader.slot self.new ≡ None };

    fn write_imsi(&mut self, part: Imsi) -> Result<(), StoreFault>
        ensures answer { result ≡ needing (Self.CardReader.slot self.old) }
        ensures after { Self.CardReader.slot self.new ≡ written (put_imsi part) (Self.CardReader.slot self.old) };

    fn write_packet(&mut self, part: PacketRecord) -> Result<(), StoreFault>
        ensures answer { result ≡ needing (Self.CardReader.slot self.old) }
        ensures after { Self.CardReader.slot self.new ≡ written (put_packet part) (Self.CardReader.slot self.old) };

    fn write_circuit(&mut self, part: Record<Lai>) -> Result<(), StoreFault>
        ensures answer { result ≡ needing (Self.CardReader.slot self.old) }
        ensures after { Self.CardReader.slot self.new ≡ written (put_circuit part) (Self.CardReader.slot self.old) };

    fn write_forbidden(&mut self, part: PlmnBar) -> Result<(), StoreFault>
        ensures answer { result ≡ needing (Self.CardReader.slot self.old) }
        ensures after { Self.CardReader.slot self.new ≡ written (put_forbidden part) (Self.CardReader.slot self.old) };
}
