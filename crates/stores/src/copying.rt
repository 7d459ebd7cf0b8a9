// What is done with any store, proved once for all of them.
ghost use Rattle.std.specs.Prelude.{◌≡◌, ◌≤◌, true, length, IfOk, Ok};
ghost use Rattle.vocabulary.specs.Same.{same_plmn};
ghost use Rattle.lists.specs.Lists.{distinct};
ghost use Rattle.stores.specs.Slots.{asked, copying, copied};

use crate::{CardReader, CardStore, StoreFault};
use card::Card;

// The whole card, asked part by part; the store is not touched. It is lawful: its parts by their types, its list as said here.
pub fn whole_card<R: CardReader>(reader: &R) -> Result<Card, StoreFault>
    ensures answer { result ≡ asked (λ c. c) (R.CardReader.slot reader.now) }
    ensures few { IfOk result (λ card. length card.forbidden ≤ 4) }
    ensures once { IfOk result (λ card. distinct same_plmn card.forbidden ≡ true) }
{
    let imsi = reader.imsi()?;
    let packet = reader.packet()?;
    let circuit = reader.circuit()?;
    let forbidden = reader.forbidden()?;
    // What its entries promise holds of the list, and so of the card.
    let _ = forbidden.entries();
    Ok(Card {
        imsi,
        packet,
        circuit,
        forbidden,
    })
}

// Loads the card of one store into another. Where that is not refused, both slots mean the same.
pub fn copy_card<R: CardReader, S: CardStore>(from: &R, to: &mut S) -> Result<(), StoreFault>
    ensures answer { result ≡ copying (R.CardReader.slot from.now) (S.CardReader.slot to.old) }
    ensures after { S.CardReader.slot to.new ≡ copied (R.CardReader.slot from.now) (S.CardReader.slot to.old) }
    ensures same { result ≡ Ok tt → S.CardReader.slot to.new ≡ R.CardReader.slot from.now }
{
    let card = whole_card(from)?;
    to.load(card)
}
