// Identities as they are shown.
use crate::Imsi;
use std::fmt;

impl fmt::Display for Imsi {
    fn fmt<W: fmt::Write>(&self, f: &mut fmt::Formatter<W>) -> fmt::Result {
        for digit in self.digits.iter().take(self.len) {
            write!(f, "{digit}")?;
        }
        Ok(())
    }
}
