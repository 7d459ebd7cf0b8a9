// What a card holds.
use identities::{Imsi, KeyNumber, Signature, Tmsi};
use lists::PlmnBar;
use std::marker::Model;
use vocabulary::{Lai, Rai};

// How the last registration ended; the numbers stand in specs/Numbers.
#[derive(Clone, Copy, PartialEq, Eq)]
pub enum Status {
    Updated,
    NotUpdated,
    NotAllowed,
}

// A registration record, of one make for either kind of area: a routing area for the packet side, a location area for
// the circuit side.
#[derive(Clone, Copy)]
pub struct Record<A> {
    pub status: Status,
    pub identity: Option<Tmsi>,
    pub area: Option<A>,
    pub key: Option<KeyNumber>,
}

// The record of the packet side, whose identity is a P-TMSI with a signature of its own.
#[derive(Clone, Copy)]
pub struct PacketRecord {
    pub base: Record<Rai>,
    pub signature: Option<Signature>,
}

#[derive(Clone, Copy)]
pub struct Card {
    pub imsi: Imsi,
    pub packet: PacketRecord,
    pub circuit: Record<Lai>,
    pub forbidden: PlmnBar,
}

// Its value is its parts. It has a model since its list has one: else it could not be passed by value and used again.
impl Model for Card {
    ghost use Rattle.card.specs.CardParts.{CardParts};

    ghost Value = { CardParts };

    ghost view = { λ card. record { imsi = card.imsi; packet = card.packet; circuit = card.circuit; forbidden = card.forbidden } };

    ghost inverse = { λ card. record { imsi = card.imsi; packet = card.packet; circuit = card.circuit; forbidden = card.forbidden } };
}
