// Why a line is not understood.
ghost use Rattle.std.specs.Prelude.{◌≡◌};
ghost use Rattle.spelling.specs.declared.failed.Failed.TheVariants.{Bad};

use crate::Part;
use spelling::Failed;
use std::error::Error;
use std::fmt;

#[derive(Clone, Copy, PartialEq, Eq, Debug)]
pub enum BadCommand {
    UnknownCommand,
    // The command wants a word behind it.
    MissingWord,
    ExtraWord,
    // A word without `=` where a part belongs.
    NoValue,
    UnknownPart,
    RepeatedPart(Part),
    // The items of a part are not those that it has.
    BadPart(Part),
    // A card to be loaded has no IMSI.
    NoImsi,
    // Not a lawful network in six hexadecimal digits.
    BadPlmn,
    // Not 48 octets in hexadecimal.
    BadImage,
}

impl From<BadCommand> for Failed<BadCommand> {
    ghost from_gives = { λ reason failed. failed ≡ Bad reason };

    fn from(reason: BadCommand) -> Failed<BadCommand> {
        Failed::Bad(reason)
    }
}

impl fmt::Display for BadCommand {
    fn fmt<W: fmt::Write>(&self, f: &mut fmt::Formatter<W>) -> fmt::Result {
        match self {
            BadCommand::UnknownCommand => write!(f, "unknown command"),
            BadCommand::MissingWord => write!(f, "a word is missing"),
            BadCommand::ExtraWord => write!(f, "a word too many"),
            BadCommand::NoValue => write!(f, "a part is name=value"),
            BadCommand::UnknownPart => write!(f, "unknown part"),
            BadCommand::RepeatedPart(part) => write!(f, "given twice: {part}"),
            BadCommand::BadPart(part) => write!(f, "no value of a part: {part}"),
            BadCommand::NoImsi => write!(f, "imsi is missing"),
            BadCommand::BadPlmn => write!(f, "not a network"),
            BadCommand::BadImage => write!(f, "an image has 48 octets"),
        }
    }
}

impl Error for BadCommand {}
