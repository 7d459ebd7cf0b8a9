// The elements behind the fixed fields of a frame, each with a space before it.
use crate::Worded;
use frames::{CircuitElements, MobileIdentity, PacketElements, PlmnList};
use std::fmt;

impl fmt::Display for Worded<PacketElements> {
    fn fmt<W: fmt::Write>(&self, f: &mut fmt::Formatter<W>) -> fmt::Result {
        let elements = self.0;
        if let Some(tmsi) = elements.p_tmsi {
            write!(f, " p-tmsi={:08X}", tmsi.bits)?;
        }
        if let Some(signature) = elements.signature {
            write!(f, " signature={:06X}", signature.bits)?;
        }
        if let Some(seconds) = elements.t3302 {
            write!(f, " t3302={seconds}s")?;
        }
        write!(f, "{}", Worded(elements.equivalents))
    }
}

impl fmt::Display for Worded<CircuitElements> {
    fn fmt<W: fmt::Write>(&self, f: &mut fmt::Formatter<W>) -> fmt::Result {
        let elements = self.0;
        match elements.identity {
            Some(MobileIdentity::Tmsi(tmsi)) => write!(f, " tmsi={:08X}", tmsi.bits)?,
            Some(MobileIdentity::Imsi(imsi)) => write!(f, " imsi={imsi}")?,
            None => {}
        }
        write!(f, "{}", Worded(elements.equivalents))
    }
}

// The networks of a list, with commas between them.
impl fmt::Display for Worded<Option<PlmnList>> {
    fn fmt<W: fmt::Write>(&self, f: &mut fmt::Formatter<W>) -> fmt::Result {
        let Some(list) = self.0 else {
            return Ok(());
        };
        write!(f, " equivalents=")?;
        for (index, plmn) in list.entries.iter().flatten().enumerate() {
            let separator = if index == 0 { "" } else { "," };
            write!(f, "{separator}{plmn}")?;
        }
        Ok(())
    }
}
