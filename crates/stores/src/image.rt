// The store over an image. Any 48 octets make one: those that no card is written as are an empty slot.
ghost use Rattle.std.specs.Prelude.{◌≡◌, None, replicate};
ghost use Rattle.card_image.specs.Meaning.{contents_in};

use crate::Tray;
use card::Card;
use card_image::{card_in, image_of};

#[derive(Clone, Copy)]
pub struct ImageStore {
    pub octets: [u8; 48],
}

// Octets that no card is written as.
fn no_card() -> [u8; 48]
    ensures octets { result ≡ replicate 48 0xff }
    ensures empty { contents_in result ≡ None }
{
    [0xff; 48]
}

impl ImageStore {
    // A store without a card.
    pub fn empty() -> ImageStore
        ensures value { contents_in result.octets ≡ None }
    {
        ImageStore { octets: no_card() }
    }
}

impl Tray for ImageStore {
    ghost slot = { λ store. contents_in store.octets };

    fn card(&self) -> Option<Card> {
        card_in(&self.octets)
    }

    fn put(&mut self, card: Option<Card>) {
        self.octets = match card {
            Some(card) => image_of(&card),
            None => no_card(),
        };
    }
}
