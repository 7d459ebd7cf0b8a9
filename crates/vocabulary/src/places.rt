// Places and their octets.
ghost use Rattle.std.specs.Prelude.{◌≡◌, Some};
ghost use Rattle.vocabulary.specs.Marks.{lawful_plmn, lawful_lac};
ghost use Rattle.vocabulary.specs.Places.{plmn_when, lai_when, plmn_in, lai_in, rai_in, plmn_octets, lai_octets, rai_octets, third_of};

use crate::{Lai, Plmn, Rai};

fn third_of(half: u8) -> Option<u8>
    ensures { result ≡ third_of half }
{
    (half != 15).then_some(half)
}

fn lawful_digits(mcc1: u8, mcc2: u8, mcc3: u8, mnc1: u8, mnc2: u8, mnc3: Option<u8>) -> bool
    ensures { result ≡ lawful_plmn mcc1 mcc2 mcc3 mnc1 mnc2 mnc3 }
{
    // Compared one by one: with a chain over the digits and `all` the proof did not close.
    mcc1 < 10
        && mcc2 < 10
        && mcc3 < 10
        && mnc1 < 10
        && mnc2 < 10
        && mnc3.is_none_or(|digit| digit < 10)
}

// By an `if`, here and in `Lai::new`, since the value carries the proof that the test gives.
fn plmn_when(mcc1: u8, mcc2: u8, mcc3: u8, mnc1: u8, mnc2: u8, mnc3: Option<u8>) -> Option<Plmn>
    ensures value { result ≡ plmn_when mcc1 mcc2 mcc3 mnc1 mnc2 mnc3 }
{
    if lawful_digits(mcc1, mcc2, mcc3, mnc1, mnc2, mnc3) {
        Some(Plmn {
            mcc1,
            mcc2,
            mcc3,
            mnc1,
            mnc2,
            mnc3,
        })
    } else {
        None
    }
}

// Octets are read and written by `from_octets` and `octets`, as std's addresses are: `Option` says all that is known of a
// failure, and `From` for an array of the octets of an area or of none could not stand in this crate.
impl Plmn {
    // The network that three octets name, if their digits are lawful.
    pub fn from_octets(octets: [u8; 3]) -> Option<Plmn>
        ensures value { result ≡ plmn_in octets }
    {
        let [a, b, c] = octets;
        plmn_when(a % 16, a / 16, b % 16, c % 16, c / 16, third_of(b / 16))
    }

    // The octets of a network; they read back as this network.
    pub fn octets(self) -> [u8; 3]
        ensures value { result ≡ plmn_octets self }
        ensures back { plmn_in result ≡ Some self }
    {
        [
            self.mcc2 * 16 + self.mcc1,
            self.mnc3.unwrap_or(15) * 16 + self.mcc3,
            self.mnc2 * 16 + self.mnc1,
        ]
    }
}

fn lawful_lac(lac: u16) -> bool
    ensures { result ≡ lawful_lac lac }
{
    lac != 0xfffe
}

impl Lai {
    // A location area of a network, unless its code is the mark.
    pub fn new(plmn: Plmn, lac: u16) -> Option<Lai>
        ensures value { result ≡ lai_when plmn lac }
    {
        if lawful_lac(lac) {
            Some(Lai { plmn, lac })
        } else {
            None
        }
    }

    // The location area that five octets name, if its network is lawful and it is not none.
    pub fn from_octets(octets: [u8; 5]) -> Option<Lai>
        ensures value { result ≡ lai_in octets }
    {
        let [a, b, c, d, e] = octets;
        let plmn = Plmn::from_octets([a, b, c])?;
        Lai::new(plmn, u16::from_be_bytes([d, e]))
    }

    // The octets of an area or of none; they read back as what they were written for.
    pub fn octets(area: Option<Lai>) -> [u8; 5]
        ensures value { result ≡ lai_octets area }
        ensures back { lai_in result ≡ area }
    {
        match area {
            Some(area) => area_octets(area),
            None => [0xff, 0xff, 0xff, 0xff, 0xfe],
        }
    }
}

fn area_octets(area: Lai) -> [u8; 5]
    ensures { result ≡ lai_octets (Some area) }
{
    let [a, b, c] = area.plmn.octets();
    let [d, e] = area.lac.to_be_bytes();
    [a, b, c, d, e]
}

impl Rai {
    // The routing area that six octets name, if its location area is one.
    pub fn from_octets(octets: [u8; 6]) -> Option<Rai>
        ensures value { result ≡ rai_in octets }
    {
        let [a, b, c, d, e, rac] = octets;
        let lai = Lai::from_octets([a, b, c, d, e])?;
        Some(Rai { lai, rac })
    }

    // The octets of an area or of none; they read back as what they were written for.
    pub fn octets(area: Option<Rai>) -> [u8; 6]
        ensures value { result ≡ rai_octets area }
        ensures back { rai_in result ≡ area }
    {
        let (lai, rac) = match area {
            Some(area) => (Some(area.lai), area.rac),
            None => (None, 0xff),
        };
        let [a, b, c, d, e] = Lai::octets(lai);
        [a, b, c, d, e, rac]
    }
}
