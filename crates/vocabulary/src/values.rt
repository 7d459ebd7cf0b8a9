// The values. Each carries, as a ghost field, that it is lawful: a mark, which says 'none', is no value of these types.
ghost use Rattle.std.specs.Prelude.{◌≡◌, true};
ghost use Rattle.vocabulary.specs.Marks.{lawful_plmn, lawful_lac};

// A network: its country code (MCC) of three digits and its network code (MNC) of two or three.
#[derive(Clone, Copy, PartialEq, Eq)]
pub struct Plmn {
    pub mcc1: u8,
    pub mcc2: u8,
    pub mcc3: u8,
    pub mnc1: u8,
    pub mnc2: u8,
    pub mnc3: Option<u8>,
    ghost lawful: { lawful_plmn mcc1 mcc2 mcc3 mnc1 mnc2 mnc3 ≡ true },
}

// A location area: a network and an area code (LAC).
#[derive(Clone, Copy, PartialEq, Eq)]
pub struct Lai {
    pub plmn: Plmn,
    pub lac: u16,
    ghost lawful: { lawful_lac lac ≡ true },
}

// A routing area: a location area and a routing area code (RAC).
#[derive(Clone, Copy, PartialEq, Eq)]
pub struct Rai {
    pub lai: Lai,
    pub rac: u8,
}
