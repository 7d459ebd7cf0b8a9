// The plain store: the card itself, or none.
use crate::Tray;
use card::Card;
use std::marker::Model;

#[derive(Clone, Copy)]
pub struct PlainStore {
    pub card: Option<Card>,
}

// Its value is the slot. It has a model since a card has one: else it could not be passed by value and used again.
impl Model for PlainStore {
    ghost use Rattle.stores.specs.Slots.{Plain};

    ghost Value = { Plain };

    ghost view = { λ store. record { card = store.card } };

    ghost inverse = { λ store. record { card = store.card } };
}

impl Tray for PlainStore {
    ghost slot = { λ store. store.card };

    fn card(&self) -> Option<Card> {
        self.card
    }

    fn put(&mut self, card: Option<Card>) {
        self.card = card;
    }
}
