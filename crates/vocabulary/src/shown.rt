// Places and refusals as they are shown.
use crate::{Lai, Layer, Plmn, Rai, Refusal};
use std::fmt;

// The digits of the country code, then those of the network code.
impl fmt::Display for Plmn {
    fn fmt<W: fmt::Write>(&self, f: &mut fmt::Formatter<W>) -> fmt::Result {
        write!(
            f,
            "{}{}{}-{}{}",
            self.mcc1, self.mcc2, self.mcc3, self.mnc1, self.mnc2
        )?;
        match self.mnc3 {
            Some(digit) => write!(f, "{digit}"),
            None => Ok(()),
        }
    }
}

impl fmt::Display for Lai {
    fn fmt<W: fmt::Write>(&self, f: &mut fmt::Formatter<W>) -> fmt::Result {
        write!(f, "{}-{:04X}", self.plmn, self.lac)
    }
}

impl fmt::Display for Rai {
    fn fmt<W: fmt::Write>(&self, f: &mut fmt::Formatter<W>) -> fmt::Result {
        write!(f, "{}-{:02X}", self.lai, self.rac)
    }
}

impl fmt::Display for Layer {
    fn fmt<W: fmt::Write>(&self, f: &mut fmt::Formatter<W>) -> fmt::Result {
        f.write_str(match self {
            Layer::Store => "store",
            Layer::Frame => "frame",
            Layer::Engine => "engine",
        })
    }
}

impl fmt::Display for Refusal {
    fn fmt<W: fmt::Write>(&self, f: &mut fmt::Formatter<W>) -> fmt::Result {
        write!(f, "refused {} {} {}", self.number, self.layer, self.octet)
    }
}
