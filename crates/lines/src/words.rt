// The words of a `write` line that name one of several things.
ghost use Rattle.spelling.specs.Words.{ReadsWord};
ghost use Rattle.answers.specs.declared.asked.BadLine.TheVariants.{UnknownMessage, BadValue};
ghost use Rattle.answers.specs.declared.asked.Name.TheVariants as name;
ghost use Rattle.lines.specs.Words.{kind_word, type_word};

use answers::{BadLine, Name};
use std::str::FromStr;

// The messages, by their words on a line.
#[derive(Clone, Copy, PartialEq, Eq, Debug)]
pub(crate) enum Kind {
    Attach,
    Update,
    Location,
    Detach,
    Indication,
    AttachComplete,
    UpdateComplete,
    TmsiComplete,
}

impl FromStr for Kind {
    type Err = BadLine;

    ghost from_str_gives = { ReadsWord kind_word UnknownMessage };

    fn from_str(text: &str) -> Result<Kind, BadLine> {
        match text {
            "attach" => Ok(Kind::Attach),
            "update" => Ok(Kind::Update),
            "location" => Ok(Kind::Location),
            "detach" => Ok(Kind::Detach),
            "indication" => Ok(Kind::Indication),
            "attach-complete" => Ok(Kind::AttachComplete),
            "update-complete" => Ok(Kind::UpdateComplete),
            "tmsi-complete" => Ok(Kind::TmsiComplete),
            _ => Err(BadLine::UnknownMessage),
        }
    }
}

// The types of updates and detaches, by their words on a line.
#[derive(Clone, Copy, PartialEq, Eq, Debug)]
pub(crate) enum TypeWord {
    Normal,
    Periodic,
    ImsiAttach,
    Gprs,
    SwitchOff,
}

impl FromStr for TypeWord {
    type Err = BadLine;

    ghost from_str_gives = { ReadsWord type_word (BadValue name.Type) };

    fn from_str(text: &str) -> Result<TypeWord, BadLine> {
        match text {
            "normal" => Ok(TypeWord::Normal),
            "periodic" => Ok(TypeWord::Periodic),
            "imsi-attach" => Ok(TypeWord::ImsiAttach),
            "gprs" => Ok(TypeWord::Gprs),
            "switch-off" => Ok(TypeWord::SwitchOff),
            _ => Err(BadLine::BadValue(Name::Type)),
        }
    }
}
