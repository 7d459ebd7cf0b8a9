// The tags of elements: how each is laid out, and which are known.
ghost use Rattle.std.specs.Prelude.{◌≡◌, ◌≤◌, slice_index};
ghost use Rattle.frames.specs.Tags.{layout_of, meaning, begin, end};

use std::ops::Range;

// The two sides of registration.
#[derive(Clone, Copy, PartialEq, Eq, Debug)]
pub(crate) enum Side {
    Packet,
    Circuit,
}

// What stands after a tag.
#[derive(Clone, Copy, PartialEq, Eq, Debug)]
pub(crate) enum Layout {
    Alone,
    Fixed(usize),
    Lengthed,
}

// What a tag means.
#[derive(Clone, Copy, PartialEq, Eq, Debug)]
pub(crate) enum Known {
    PTmsiSignature,
    PTmsi,
    T3302,
    Identity,
    Equivalents,
    Skipped,
    BelowTen,
}

// A tag, on the side whose frames it stands in.
#[derive(Clone, Copy, PartialEq, Eq, Debug)]
pub(crate) struct Tag {
    pub side: Side,
    pub octet: u8,
}

impl From<Tag> for Layout {
    ghost from_gives = { λ tag layout. layout ≡ layout_of tag.side tag.octet };

    fn from(tag: Tag) -> Layout {
        match (tag.side, tag.octet) {
            (_, 0x80..) => Layout::Alone,
            (Side::Packet, 0x19) => Layout::Fixed(3),
            (Side::Packet, 0x17 | 0x25) => Layout::Fixed(1),
            _ => Layout::Lengthed,
        }
    }
}

impl From<Tag> for Known {
    ghost from_gives = { λ tag known. known ≡ meaning tag.side tag.octet };

    fn from(tag: Tag) -> Known {
        match (tag.side, tag.octet) {
            (Side::Packet, 0x19) => Known::PTmsiSignature,
            (Side::Packet, 0x18) => Known::PTmsi,
            (Side::Packet, 0x2a) => Known::T3302,
            (Side::Circuit, 0x17) => Known::Identity,
            (_, 0x4a) => Known::Equivalents,
            (_, 0x00..=0x0f) => Known::BelowTen,
            _ => Known::Skipped,
        }
    }
}

// The length octet; an element whose length octet is missing is cut short whatever its length.
fn length_octet(after: &[u8]) -> u8
    ensures { result ≡ slice_index after.now 0 }
{
    after.first().copied().unwrap_or(0)
}

impl Tag {
    // Where the value of its element begins and ends, counted from the octet after the tag.
    pub(crate) fn span(self, after: &[u8]) -> Range<usize>
        ensures from { result.start ≡ begin (layout_of self.side self.octet) }
        ensures to { result.end ≡ end (layout_of self.side self.octet) after.now }
        ensures ordered { result.start ≤ result.end }
        ensures bound { result.end ≤ 256 }
    {
        match Layout::from(self) {
            Layout::Alone => 0..0,
            Layout::Fixed(octets) => 0..octets,
            Layout::Lengthed => 1..1 + usize::from(length_octet(after)),
        }
    }
}
