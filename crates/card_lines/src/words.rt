// The words of a line that name one of several things.
ghost use Rattle.std.specs.Prelude.{◌≡◌, Some};
ghost use Rattle.spelling.specs.Words.{ReadsWord};
ghost use Rattle.card_lines.specs.Words.{kind_word, part_word, verb_word};
ghost use Rattle.card_lines.specs.declared.faults.BadCommand.TheVariants.{UnknownCommand, UnknownPart};

use crate::BadCommand;
use std::fmt;
use std::str::FromStr;

// What is to be done: an enum, since it is read from a text and each wants other words behind it.
#[derive(Clone, Copy, PartialEq, Eq, Debug)]
pub(crate) enum Verb {
    Load,
    Write,
    Eject,
    Forbid,
    Permit,
    Show,
    Octets,
    Copy,
    Damage,
}

// One of the two stores.
#[derive(Clone, Copy, PartialEq, Eq, Debug)]
pub enum Kind {
    Plain,
    Image,
}

// The parts of a card.
#[derive(Clone, Copy, PartialEq, Eq, Debug)]
pub enum Part {
    Imsi,
    Packet,
    Circuit,
    Forbidden,
}

impl FromStr for Verb {
    type Err = BadCommand;

    ghost from_str_gives = { ReadsWord verb_word UnknownCommand };

    fn from_str(text: &str) -> Result<Verb, BadCommand> {
        match text {
            "load" => Ok(Verb::Load),
            "write" => Ok(Verb::Write),
            "eject" => Ok(Verb::Eject),
            "forbid" => Ok(Verb::Forbid),
            "permit" => Ok(Verb::Permit),
            "show" => Ok(Verb::Show),
            "octets" => Ok(Verb::Octets),
            "copy" => Ok(Verb::Copy),
            "damage" => Ok(Verb::Damage),
            _ => Err(BadCommand::UnknownCommand),
        }
    }
}

impl FromStr for Kind {
    type Err = BadCommand;

    ghost from_str_gives = { ReadsWord kind_word UnknownCommand };

    fn from_str(text: &str) -> Result<Kind, BadCommand> {
        match text {
            "plain" => Ok(Kind::Plain),
            "image" => Ok(Kind::Image),
            _ => Err(BadCommand::UnknownCommand),
        }
    }
}

impl FromStr for Part {
    type Err = BadCommand;

    ghost from_str_gives = { ReadsWord part_word UnknownPart };

    fn from_str(text: &str) -> Result<Part, BadCommand> {
        match text {
            "imsi" => Ok(Part::Imsi),
            "packet" => Ok(Part::Packet),
            "circuit" => Ok(Part::Circuit),
            "forbidden" => Ok(Part::Forbidden),
            _ => Err(BadCommand::UnknownPart),
        }
    }
}

impl fmt::Display for Kind {
    ghost output = { λ kind. Some (kind_word kind) };

    fn fmt<W: fmt::Write>(&self, f: &mut fmt::Formatter<W>) -> fmt::Result {
        match self {
            Kind::Plain => write!(f, "plain"),
            Kind::Image => write!(f, "image"),
        }
    }
}

impl fmt::Display for Part {
    ghost output = { λ part. Some (part_word part) };

    fn fmt<W: fmt::Write>(&self, f: &mut fmt::Formatter<W>) -> fmt::Result {
        match self {
            Part::Imsi => write!(f, "imsi"),
            Part::Packet => write!(f, "packet"),
            Part::Circuit => write!(f, "circuit"),
            Part::Forbidden => write!(f, "forbidden"),
        }
    }
}
