// The values of fields: most are octets, an IMSI and a key number are digits, a type is a word.
ghost use Rattle.std.specs.Prelude.{◌≡◌};
ghost use Rattle.std.specs.Option.{option_or};
ghost use Rattle.spelling.specs.Failed.{UnlessShort};
ghost use Rattle.lines.specs.Sets.{Sets};
ghost use Rattle.lines.specs.Values.{key_in};
ghost use Rattle.lines.specs.Words.{putting};
ghost use Rattle.lines.specs.Writes.{Takes};

use crate::fields::{Fields, belongs};
use crate::words::Kind;
use answers::{BadLine, Name};
use identities::{Imsi, KeyNumber, Signature, Tmsi};
use spelling::{Failed, digits_in, octets_in, octets_or_none};
use std::alloc::Global;
use vocabulary::{Lai, Rai};

// A key number from 0 to 6; 7 is none.
fn key_in(text: &[u8]) -> Option<Option<KeyNumber>>
    ensures value { result ≡ key_in text.now }
{
    match text {
        [digit @ b'0'..=b'7'] => Some(KeyNumber::new(*digit - b'0')),
        _ => None,
    }
}

// Puts a value into its field, once.
fn put<T: Drop>(field: &mut Option<T>, value: Option<T>, name: Name) -> Result<(), BadLine>
    ensures value { result ≡ putting field.old value name }
    ensures after { field.new ≡ option_or field.old value }
{
    if value.is_none() {
        return Err(BadLine::BadValue(name));
    }
    if field.is_some() {
        return Err(BadLine::RepeatedField(name));
    }
    *field = value;
    Ok(())
}

impl Fields {
    // Puts the value that a text gives into the field of that name.
    fn set(&mut self, heap: Global, name: Name, value: &str) -> Result<(), Failed<BadLine>>
        ensures value { UnlessShort result (λ r. Sets self.old name value.now r self.new) }
    {
        let text = value.as_bytes();
        let held = octets_or_none(heap, text)?;
        let octets = held.as_slice();
        match name {
            Name::Imsi => {
                let digits = digits_in(heap, text)?;
                put(&mut self.imsi, Imsi::from_digits(digits.as_slice()), name)?
            }
            Name::Tmsi => put(
                &mut self.tmsi,
                octets_in(octets).and_then(Tmsi::from_octets),
                name,
            )?,
            Name::Signature => {
                let signature = octets_in(octets).and_then(Signature::from_octets);
                put(&mut self.signature, signature, name)?
            }
            Name::Rai => put(
                &mut self.rai,
                octets_in(octets).and_then(Rai::from_octets),
                name,
            )?,
            Name::Lai => put(
                &mut self.lai,
                octets_in(octets).and_then(Lai::from_octets),
                name,
            )?,
            Name::Key => put(&mut self.key, key_in(text), name)?,
            Name::Type => put(&mut self.word, value.parse().ok(), name)?,
            Name::Classmark => put(
                &mut self.classmark,
                octets_in(octets).map(u8::from_be_bytes),
                name,
            )?,
            Name::Capability => put(&mut self.capability, octets_in(octets), name)?,
            Name::Drx => put(&mut self.drx, octets_in(octets), name)?,
            Name::Radio => put(&mut self.radio, octets_in(octets), name)?,
        }
        Ok(())
    }

    // One word of the line, `name=value`.
    pub(crate) fn take(
        &mut self,
        heap: Global,
        kind: Kind,
        word: &str,
    ) -> Result<(), Failed<BadLine>>
        ensures value { UnlessShort result (λ r. Takes kind self.old word.now r self.new) }
    {
        let (name, value) = word.split_once('=').ok_or(BadLine::NoValue)?;
        let name = name.parse()?;
        if !belongs(kind, name) {
            return Err(BadLine::ForeignField(name).into());
        }
        self.set(heap, name, value)
    }
}
