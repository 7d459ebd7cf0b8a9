// The elements that follow the fixed octets, taken one after the other.
ghost use Rattle.std.specs.Prelude.{◌≡◌, ◌+◌, ◌≤◌, length, drop};
ghost use Rattle.frames.specs.Elements.{nothing, walk};

use crate::ElementFault;
use crate::found::Found;
use crate::tags::{Known, Side, Tag};
use std::ops::Range;

// What is found in the elements after the fixed octets of a frame, or the octet at which it is cut short.
pub(crate) fn walk(side: Side, frame: &[u8], fixed: usize) -> Result<Found, ElementFault>
    requires { fixed ≤ length frame.now }
    ensures value { result ≡ walk side nothing (fixed + 1) (drop fixed frame.now) 0 }
{
    let mut found = Found::default();
    let mut rest = &frame[fixed..];
    // How many octets an element takes is known once its tag is read, so patterns take the rest and no index is counted.
    while let [octet, after @ ..] = rest {
        let tag = Tag {
            side,
            octet: *octet,
        };
        let Range { start, end } = tag.span(after);
        if end > after.len() {
            return Err(ElementFault::Cut(frame.len() + 1));
        }
        let at = frame.len() - after.len();
        found.note(Known::from(tag), &after[start..end], at);
        rest = &after[end..];
    }
    Ok(found)
}
