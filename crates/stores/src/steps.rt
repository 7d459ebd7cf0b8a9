// One step of a card's day, on any store.
ghost use Rattle.std.specs.Prelude.{◌≡◌};
ghost use Rattle.stores.specs.Slots.{needing};
ghost use Rattle.stores.specs.Steps.{Relisted, step_answer, step_after};

use crate::{CardReader, CardStore, StoreFault};
use card::{Card, PacketRecord, Record};
use identities::Imsi;
use lists::PlmnBar;
use vocabulary::{Lai, Plmn};

// A value and no closure, since a line of text gives it and a host may keep it.
#[derive(Clone, Copy)]
pub enum Step {
    Load(Card),
    Eject,
    WriteImsi(Imsi),
    WritePacket(PacketRecord),
    WriteCircuit(Record<Lai>),
    WriteForbidden(PlmnBar),
    // One network more on the list of the card.
    Forbid(Plmn),
    // One network less there.
    Permit(Plmn),
}

// Makes another list of the forbidden networks of the card.
fn relist<S: CardStore, F: FnOnce(PlmnBar) -> PlmnBar>(
    store: &mut S,
    change: F,
) -> Result<(), StoreFault>
    requires { F.IsAlwaysCallable change }
    ensures answer { result ≡ needing (S.CardReader.slot store.old) }
    ensures after { Relisted (F.post change) (S.CardReader.slot store.old) (S.CardReader.slot store.new) }
{
    let list = store.forbidden()?;
    store.write_forbidden(change(list))
}

// Takes a step on a store; a refused one changes nothing.
pub fn take_step<S: CardStore>(store: &mut S, step: &Step) -> Result<(), StoreFault>
    ensures answer { result ≡ step_answer step.now (S.CardReader.slot store.old) }
    ensures after { S.CardReader.slot store.new ≡ step_after step.now (S.CardReader.slot store.old) }
{
    match step {
        Step::Load(card) => store.load(*card),
        Step::Eject => store.eject(),
        Step::WriteImsi(part) => store.write_imsi(*part),
        Step::WritePacket(part) => store.write_packet(*part),
        Step::WriteCircuit(part) => store.write_circuit(*part),
        Step::WriteForbidden(part) => store.write_forbidden(*part),
        Step::Forbid(plmn) => relist(store, |mut list| {
            list.add(*plmn);
            list
        }),
        Step::Permit(plmn) => relist(store, |mut list| {
            list.remove(*plmn);
            list
        }),
    }
}
