// A frame by its name in the standard, and every field that was read.
use crate::Worded;
use frames::{Cause, Downlink, PacketAccept};
use std::fmt;

impl fmt::Display for Worded<Downlink> {
    fn fmt<W: fmt::Write>(&self, f: &mut fmt::Formatter<W>) -> fmt::Result {
        match self.0 {
            Downlink::AttachAccept(accept) => write!(f, "attach accept {}", Worded(accept)),
            Downlink::AttachReject(cause, elements) => {
                write!(f, "attach reject {}{}", Worded(cause), Worded(elements))
            }
            Downlink::DetachAccept(elements) => write!(f, "detach accept{}", Worded(elements)),
            Downlink::UpdateAccept(accept) => {
                write!(f, "routing area update accept {}", Worded(accept))
            }
            Downlink::UpdateReject(cause, elements) => {
                write!(
                    f,
                    "routing area update reject {}{}",
                    Worded(cause),
                    Worded(elements)
                )
            }
            Downlink::LocationAccept(lai, elements) => {
                write!(f, "location updating accept lai={lai}{}", Worded(elements))
            }
            Downlink::LocationReject(cause, elements) => {
                write!(
                    f,
                    "location updating reject {}{}",
                    Worded(cause),
                    Worded(elements)
                )
            }
        }
    }
}

impl fmt::Display for Worded<PacketAccept> {
    fn fmt<W: fmt::Write>(&self, f: &mut fmt::Formatter<W>) -> fmt::Result {
        let accept = self.0;
        write!(
            f,
            "t3312={}s rai={}{}",
            accept.t3312,
            accept.rai,
            Worded(accept.elements)
        )
    }
}

impl fmt::Display for Worded<Cause> {
    fn fmt<W: fmt::Write>(&self, f: &mut fmt::Formatter<W>) -> fmt::Result {
        write!(f, "cause={} ", u8::from(self.0))?;
        f.write_str(match self.0 {
            Cause::ImsiUnknownInHlr => "IMSI unknown in HLR",
            Cause::IllegalMs => "Illegal MS",
            Cause::IllegalMe => "Illegal ME",
            Cause::GprsNotAllowed => "GPRS services not allowed",
            Cause::GprsAndNonGprsNotAllowed => "GPRS services and non-GPRS services not allowed",
            Cause::IdentityCannotBeDerived => "MS identity cannot be derived by the network",
            Cause::ImplicitlyDetached => "Implicitly detached",
            Cause::PlmnNotAllowed => "PLMN not allowed",
            Cause::LocationAreaNotAllowed => "Location area not allowed",
            Cause::RoamingNotAllowed => "Roaming not allowed in this location area",
            Cause::GprsNotAllowedInPlmn => "GPRS services not allowed in this PLMN",
            Cause::NoSuitableCells => "No suitable cells in location area",
            Cause::Other(_) => "other",
        })
    }
}
