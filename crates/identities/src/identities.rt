// Identities and keys, and their octets.
ghost use Rattle.std.specs.Prelude.{◌≡◌, ◌<◌, length, take, drop, Some, slice_index, slice_index_or};
ghost use Rattle.identities.specs.Marks.{place_fits, digits_then_filler, lawful_imsi, lawful_tmsi, lawful_signature, lawful_key};
ghost use Rattle.identities.specs.Identities.{tmsi_when, tmsi_in, tmsi_octets, signature_when, signature_in, signature_octets, key_when, key_written, imsi_when, imsi_from, imsi_octets, imsi_of, imsi_type, pair, places_of, digits_in};

use crate::{Imsi, KeyNumber, Signature, Tmsi};
use std::array;

fn lawful_tmsi(bits: u32) -> bool
    ensures { result ≡ lawful_tmsi bits }
{
    bits < 0xffff_ffff
}

// `new`, `from_octets` and `octets` stay functions, as std's addresses have them: `Option` says all that is known of a failure.
// Each type has its own `new`, by an `if`: their marks and octets differ, and a value carries the proof that its test gives.
impl Tmsi {
    // A temporary identity, unless the bits are the mark.
    pub fn new(bits: u32) -> Option<Tmsi>
        ensures value { result ≡ tmsi_when bits }
    {
        if lawful_tmsi(bits) {
            Some(Tmsi { bits })
        } else {
            None
        }
    }

    // The identity that four octets name, the highest first, unless they are the mark.
    pub fn from_octets(octets: [u8; 4]) -> Option<Tmsi>
        ensures value { result ≡ tmsi_in octets }
    {
        Tmsi::new(u32::from_be_bytes(octets))
    }

    // The octets of the identity, the highest first; they read back as this identity.
    pub fn octets(self) -> [u8; 4]
        ensures value { result ≡ tmsi_octets self }
        ensures back { tmsi_in result ≡ Some self }
    {
        self.bits.to_be_bytes()
    }
}

fn lawful_signature(bits: u32) -> bool
    ensures { result ≡ lawful_signature bits }
{
    bits < 0xff_ffff
}

impl Signature {
    // A signature, unless the bits are the mark or more than 24.
    pub fn new(bits: u32) -> Option<Signature>
        ensures value { result ≡ signature_when bits }
    {
        if lawful_signature(bits) {
            Some(Signature { bits })
        } else {
            None
        }
    }

    // The signature that three octets name, the highest first, unless they are the mark.
    pub fn from_octets(octets: [u8; 3]) -> Option<Signature>
        ensures value { result ≡ signature_in octets }
    {
        let [a, b, c] = octets;
        Signature::new(u32::from_be_bytes([0, a, b, c]))
    }

    // The octets of the signature, the highest first; they read back as this signature.
    pub fn octets(self) -> [u8; 3]
        ensures value { result ≡ signature_octets self }
        ensures back { signature_in result ≡ Some self }
    {
        let [_, a, b, c] = self.bits.to_be_bytes();
        [a, b, c]
    }
}

fn lawful_key(number: u8) -> bool
    ensures { result ≡ lawful_key number }
{
    number < 7
}

impl KeyNumber {
    // A key number, unless it is the mark or above it.
    pub fn new(number: u8) -> Option<KeyNumber>
        ensures value { result ≡ key_when number }
    {
        if lawful_key(number) {
            Some(KeyNumber { number })
        } else {
            None
        }
    }

    // The number that a key, or none, is written by.
    pub fn written(key: Option<KeyNumber>) -> u8
        ensures value { result ≡ key_written key }
        ensures back { key_when result ≡ key }
    {
        match key {
            Some(key) => key.number,
            None => 7,
        }
    }
}

fn place_fits(len: usize, i: usize, half: u8) -> bool
    ensures { result ≡ place_fits len i half }
{
    if i < len { half < 10 } else { half == 15 }
}

// Whether `len` digits stand in front, and the filler in every other place.
fn digits_then_filler(len: usize, places: &[u8]) -> bool
    ensures { result ≡ digits_then_filler len 0 places.now }
{
    for (i, half) in places.iter().enumerate() {
        if !place_fits(len, i, *half) {
            return false;
        }
    }
    len <= places.len()
}

fn lawful_imsi(digits: &[u8], len: usize) -> bool
    ensures { result ≡ lawful_imsi digits.now len }
{
    len >= 6 && len <= 15 && digits.len() == 15 && digits_then_filler(len, digits)
}

fn imsi_when(digits: [u8; 15], len: usize) -> Option<Imsi>
    ensures value { result ≡ imsi_when digits len }
{
    if lawful_imsi(&digits, len) {
        Some(Imsi { digits, len })
    } else {
        None
    }
}

// The octet at a place of a coded identity, FF past its end.
fn octet_or_filler(coded: &[u8], at: usize) -> u8
    ensures { result ≡ slice_index_or coded.now at 255 }
{
    coded.get(at).copied().unwrap_or(255)
}

fn places_of(coded: &[u8]) -> [u8; 15]
    ensures { result ≡ places_of coded.now }
{
    array::from_fn(|at| {
        let octet = octet_or_filler(coded, (at + 1) / 2);
        if at % 2 == 0 { octet / 16 } else { octet % 16 }
    })
}

// How many digits a coded identity has, by its length and the low half of its first octet.
fn digits_in(coded: &[u8]) -> usize
    requires { length coded.now < 9 }
    ensures { result ≡ digits_in coded.now }
{
    match octet_or_filler(coded, 0) % 16 {
        9 => (2 * coded.len()).saturating_sub(1),
        1 => (2 * coded.len()).saturating_sub(2),
        _ => 0,
    }
}

impl Imsi {
    // The IMSI of a list of digits, if they are digits and 6 to 15 of them.
    pub fn from_digits(digits: &[u8]) -> Option<Imsi>
        ensures value { result ≡ imsi_from digits.now }
    {
        if digits.len() >= 16 {
            return None;
        }
        let mut places = [15; 15];
        places[0..digits.len()].copy_from_slice(digits);
        imsi_when(places, digits.len())
    }

    // The IMSI that the octets of a mobile identity code, without their length octet.
    pub fn from_octets(coded: &[u8]) -> Option<Imsi>
        ensures value { result ≡ imsi_of coded.now }
    {
        if coded.len() >= 9 {
            return None;
        }
        imsi_when(places_of(coded), digits_in(coded))
    }

    // The IMSI as a mobile identity: its length octet, the octets, and FF to nine.
    pub fn octets(self) -> [u8; 9]
        ensures value { result ≡ imsi_octets self }
        ensures back { imsi_of (take (slice_index result 0) (drop 1 result)) ≡ Some self }
    {
        self.coded()
    }

    fn coded(self) -> [u8; 9]
        ensures { result ≡ imsi_octets self }
    {
        let kind = if self.len % 2 == 1 { 9 } else { 1 };
        let [c, d, e, f, g, h, i]: [u8; 7] = array::from_fn(|pair| {
            self.half(2 * pair + 2) * 16 + self.half(2 * pair + 1)
        });
        [
            (self.len / 2 + 1) as u8,
            self.half(0) * 16 + kind,
            c,
            d,
            e,
            f,
            g,
            h,
            i,
        ]
    }

    // The digit or filler at a place.
    fn half(self, at: usize) -> u8
        requires { at < 15 }
        ensures value { result ≡ slice_index self.digits at }
        ensures small { result < 16 }
    {
        self.digits[at]
    }
}
