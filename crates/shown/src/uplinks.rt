// A message by its name in the standard, and its octets, each with a space before it.
use crate::Worded;
use answers::Octets;
use frames::Uplink;
use std::fmt;

impl fmt::Display for Worded<Uplink> {
    fn fmt<W: fmt::Write>(&self, f: &mut fmt::Formatter<W>) -> fmt::Result {
        f.write_str(match self.0 {
            Uplink::AttachRequest(_, _) => "attach request",
            Uplink::AttachComplete => "attach complete",
            Uplink::DetachRequest(_) => "detach request",
            Uplink::UpdateRequest(_, _, _) => "routing area update request",
            Uplink::UpdateComplete => "routing area update complete",
            Uplink::DetachIndication(_, _) => "IMSI detach indication",
            Uplink::LocationRequest(_, _, _) => "location updating request",
            Uplink::TmsiComplete => "TMSI reallocation complete",
        })
    }
}

impl fmt::Display for Worded<Octets> {
    fn fmt<W: fmt::Write>(&self, f: &mut fmt::Formatter<W>) -> fmt::Result {
        for octet in self.0.as_slice() {
            write!(f, " {octet:02X}")?;
        }
        Ok(())
    }
}
