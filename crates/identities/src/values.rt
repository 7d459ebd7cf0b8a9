// The values. Each carries, as a ghost field, that it is lawful: a mark, which says 'none', is no value of these types.
ghost use Rattle.std.specs.Prelude.{◌≡◌, true};
ghost use Rattle.identities.specs.Marks.{lawful_tmsi, lawful_signature, lawful_key, lawful_imsi};

// A subscriber: 6 to 15 digits, the first `len` places; the other places hold the filler F. An array with its length, since
// memory is fixed and the value is copied.
#[derive(Clone, Copy, PartialEq, Eq)]
pub struct Imsi {
    pub digits: [u8; 15],
    pub len: usize,
    ghost lawful: { lawful_imsi digits len ≡ true },
}

// A temporary identity: a TMSI, or on the packet side a P-TMSI. Identity, signature and key are types of their own, since one
// over the mark would still need their octets and their numbers apart.
#[derive(Clone, Copy, PartialEq, Eq)]
pub struct Tmsi {
    pub bits: u32,
    ghost lawful: { lawful_tmsi bits ≡ true },
}

// A P-TMSI signature, of 24 bits.
#[derive(Clone, Copy, PartialEq, Eq)]
pub struct Signature {
    pub bits: u32,
    ghost lawful: { lawful_signature bits ≡ true },
}

// A ciphering key sequence number: the number that the network gave the key, and no code of the program's.
#[derive(Clone, Copy, PartialEq, Eq)]
pub struct KeyNumber {
    pub number: u8,
    ghost lawful: { lawful_key number ≡ true },
}
