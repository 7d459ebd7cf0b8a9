// Why a frame is refused.
ghost use Rattle.std.specs.Prelude.{◌≡◌};
ghost use Rattle.frames.specs.Faults.{refusal_of};
ghost use Rattle.frames.specs.declared.faults.FrameFault.TheVariants.{Element};

use vocabulary::{Layer, Refusal};

// What is wrong in the elements after the fixed octets. Each case has the octet of the frame, counted from 1.
#[derive(Clone, Copy, PartialEq, Eq, Debug)]
pub enum ElementFault {
    // The frame ends inside an element: the octet that is missing.
    Cut(usize),
    // The value of a known element is bad: the octet of its tag.
    BadValue(usize),
    // A tag below 10 that nobody knows: its octet.
    UnknownTag(usize),
}

// What is wrong in a frame.
#[derive(Clone, Copy, PartialEq, Eq, Debug)]
pub enum FrameFault {
    // Under 2 or over 251 octets.
    Length,
    // The first two octets name no frame that is read.
    UnknownFrame,
    // The frame ends inside its fixed octets: the octet that is missing.
    Cut(usize),
    // A fixed field has a bad value: its first octet.
    BadValue(usize),
    Element(ElementFault),
}

impl From<ElementFault> for FrameFault {
    ghost from_gives = { λ e r. r ≡ Element e };

    fn from(fault: ElementFault) -> FrameFault {
        FrameFault::Element(fault)
    }
}

// The number, the layer and the octet that the host is told.
impl From<FrameFault> for Refusal {
    ghost from_gives = { λ fault refusal. refusal ≡ refusal_of fault };

    fn from(fault: FrameFault) -> Refusal {
        let (number, octet) = match fault {
            FrameFault::Length => (11, 1),
            FrameFault::UnknownFrame => (12, 1),
            FrameFault::Cut(octet) => (13, octet),
            FrameFault::BadValue(octet) => (14, octet),
            FrameFault::Element(ElementFault::Cut(octet)) => (13, octet),
            FrameFault::Element(ElementFault::BadValue(octet)) => (14, octet),
            FrameFault::Element(ElementFault::UnknownTag(octet)) => (15, octet),
        };
        Refusal {
            number,
            layer: Layer::Frame,
            octet,
        }
    }
}
