// What a line of text asks for.
ghost use Rattle.std.specs.Prelude.{◌≡◌, Some};
ghost use Rattle.spelling.specs.Words.{ReadsWord};
ghost use Rattle.spelling.specs.declared.failed.Failed.TheVariants.{Bad};
ghost use Rattle.answers.specs.Words.{name_word, told};
ghost use Rattle.answers.specs.declared.asked.BadLine.TheVariants.{UnknownField};

use frames::Uplink;
use spelling::{Failed, Misspelled};
use std::error::Error;
use std::fmt;
use std::str::FromStr;

// The fields of a message, by their names on a line.
#[derive(Clone, Copy, PartialEq, Eq, Debug)]
pub enum Name {
    Imsi,
    Tmsi,
    Signature,
    Rai,
    Lai,
    Key,
    Type,
    Classmark,
    Capability,
    Drx,
    Radio,
}

impl FromStr for Name {
    type Err = BadLine;

    ghost from_str_gives = { ReadsWord name_word UnknownField };

    fn from_str(text: &str) -> Result<Name, BadLine> {
        match text {
            "imsi" => Ok(Name::Imsi),
            "tmsi" => Ok(Name::Tmsi),
            "signature" => Ok(Name::Signature),
            "rai" => Ok(Name::Rai),
            "lai" => Ok(Name::Lai),
            "key" => Ok(Name::Key),
            "type" => Ok(Name::Type),
            "classmark" => Ok(Name::Classmark),
            "capability" => Ok(Name::Capability),
            "drx" => Ok(Name::Drx),
            "radio" => Ok(Name::Radio),
            _ => Err(BadLine::UnknownField),
        }
    }
}

impl fmt::Display for Name {
    ghost output = { λ name. Some (name_word name) };

    fn fmt<W: fmt::Write>(&self, f: &mut fmt::Formatter<W>) -> fmt::Result {
        match self {
            Name::Imsi => write!(f, "imsi"),
            Name::Tmsi => write!(f, "tmsi"),
            Name::Signature => write!(f, "signature"),
            Name::Rai => write!(f, "rai"),
            Name::Lai => write!(f, "lai"),
            Name::Key => write!(f, "key"),
            Name::Type => write!(f, "type"),
            Name::Classmark => write!(f, "classmark"),
            Name::Capability => write!(f, "capability"),
            Name::Drx => write!(f, "drx"),
            Name::Radio => write!(f, "radio"),
        }
    }
}

// Why a line is not understood.
#[derive(Clone, Copy, PartialEq, Eq, Debug)]
pub enum BadLine {
    // A digit that stands alone: an octet has two.
    OddDigits,
    // A character that is no hexadecimal digit.
    NotHexadecimal,
    // A line that begins with a `w`, and not with the word `write`.
    UnknownCommand,
    // No message has this name.
    UnknownMessage,
    // A word without `=`.
    NoValue,
    // No field has this name.
    UnknownField,
    // A field that this message has no use for.
    ForeignField(Name),
    RepeatedField(Name),
    // No lawful value of the field, or none for this message.
    BadValue(Name),
    // The message may carry the IMSI, and the line does not give it.
    NoImsi,
}

impl From<Misspelled> for BadLine {
    ghost from_gives = { λ reason bad. bad ≡ told reason };

    fn from(reason: Misspelled) -> BadLine {
        match reason {
            Misspelled::OddDigits => BadLine::OddDigits,
            Misspelled::NotHexadecimal => BadLine::NotHexadecimal,
        }
    }
}

impl From<BadLine> for Failed<BadLine> {
    ghost from_gives = { λ reason failed. failed ≡ Bad reason };

    fn from(reason: BadLine) -> Failed<BadLine> {
        Failed::Bad(reason)
    }
}

impl fmt::Display for BadLine {
    fn fmt<W: fmt::Write>(&self, f: &mut fmt::Formatter<W>) -> fmt::Result {
        match self {
            BadLine::OddDigits => write!(f, "an octet has two digits"),
            BadLine::NotHexadecimal => write!(f, "not hexadecimal"),
            BadLine::UnknownCommand => write!(f, "unknown command"),
            BadLine::UnknownMessage => write!(f, "unknown message"),
            BadLine::NoValue => write!(f, "a field is name=value"),
            BadLine::UnknownField => write!(f, "unknown field"),
            BadLine::ForeignField(name) => write!(f, "no field of this message: {name}"),
            BadLine::RepeatedField(name) => write!(f, "given twice: {name}"),
            BadLine::BadValue(name) => write!(f, "unlawful value: {name}"),
            BadLine::NoImsi => write!(f, "imsi is missing"),
        }
    }
}

impl Error for BadLine {}

#[derive(Drop)]
pub enum Line {
    // Nothing but spaces and a comment.
    Blank,
    // The octets of a frame of the network.
    Frame(Vec<u8>),
    // A message of the modem, to be written.
    Write(Uplink),
    // Why the line is not understood: a case and no error, since it is answered like any other.
    Bad(BadLine),
}
