// A card as it comes from outside, with nothing checked.

// The fields of a registration record; the octets of its area are those of either kind. Status and key are numbers, since
// a narrower type would ask the caller to check them; `Status` and `KeyNumber` are made of them here.
#[derive(Clone, Copy)]
pub struct RecordFields<O> {
    // 1 updated, 2 not updated, 3 not allowed.
    pub status: u8,
    pub identity: Option<u32>,
    pub area: Option<O>,
    // 0 to 7, where 7 is none.
    pub key: u8,
}

#[derive(Clone, Copy)]
pub struct CardFields<'a> {
    // Digits, the first one first.
    pub imsi: &'a [u8],
    pub packet: RecordFields<[u8; 6]>,
    pub signature: Option<u32>,
    pub circuit: RecordFields<[u8; 5]>,
    pub forbidden: &'a [[u8; 3]],
}

// What is not lawful in a card that is given.
#[derive(Clone, Copy, PartialEq, Eq)]
pub enum Unlawful {
    // Not 6 to 15 decimal digits.
    Imsi,
    // Not 1 to 3.
    Status,
    // The mark of no TMSI or P-TMSI, given as a value.
    Identity,
    // The mark of no signature, or more than 24 bits.
    Signature,
    // An unlawful network, or the mark of no area.
    Area,
    // Above 7.
    Key,
    // An unlawful network, one that stands twice, or more than four.
    Forbidden,
}
