// What is not lawful in a card.
use card::Unlawful;
use std::fmt;

// The part that is not lawful, by its name.
#[derive(Clone, Copy)]
pub(crate) struct UnlawfulPart(pub Unlawful);

impl fmt::Display for UnlawfulPart {
    fn fmt<W: fmt::Write>(&self, f: &mut fmt::Formatter<W>) -> fmt::Result {
        match self.0 {
            Unlawful::Imsi => write!(f, "imsi"),
            Unlawful::Status => write!(f, "status"),
            Unlawful::Identity => write!(f, "identity"),
            Unlawful::Signature => write!(f, "signature"),
            Unlawful::Area => write!(f, "area"),
            Unlawful::Key => write!(f, "key"),
            Unlawful::Forbidden => write!(f, "forbidden"),
        }
    }
}
