// Answers as they are shown: one line each.
#![tactic(auto)]

mod downlinks;
mod elements;
mod uplinks;

use answers::Answer;
use std::fmt;

// An answer that is shown as a line of text.
#[derive(Clone, Copy)]
pub struct Shown(pub Answer);

// A part of an answer, in the words of its line: a message of the network, what it accepts, its cause, its elements, or the
// networks of a list; a message of the modem, or its octets. What stands behind others on the line (elements, networks, octets)
// begins with a space.
#[derive(Clone, Copy)]
pub struct Worded<T>(pub T);

impl fmt::Display for Shown {
    fn fmt<W: fmt::Write>(&self, f: &mut fmt::Formatter<W>) -> fmt::Result {
        match self.0 {
            Answer::Nothing => Ok(()),
            Answer::Read(message) => write!(f, "{}", Worded(message)),
            Answer::Refused(refusal) => write!(f, "{refusal}"),
            Answer::Written(message, octets) => write!(f, "{}{}", Worded(message), Worded(octets)),
            Answer::Bad(reason) => write!(f, "{reason}"),
        }
    }
}

#[cfg(test)]
mod tests {
    use super::*;
    use answers::Octets;
    use frames::{Cause, CircuitElements, Downlink, Uplink, read};
    use std::alloc::{AllocError, Global};
    use std::test::Fail;

    fn worded<T: Drop>(heap: Global, part: T) -> Result<String, AllocError>
    where
        Worded<T>: fmt::Display,
    {
        Worded(part).to_string(heap)
    }

    #[test]
    fn parts_of_an_accept_have_their_words_alone(rt: HostRuntime) -> Result<(), Fail> {
        let heap = rt.alloc();
        let frame = [8, 2, 1, 73, 4, 0, 241, 16, 0, 1, 5, 74, 3, 19, 0, 20];
        let Ok(Downlink::AttachAccept(accept)) = read(&frame) else {
            return Err(Fail::new("no attach accept"));
        };
        let equivalents = accept.elements.equivalents;
        let circuit = CircuitElements {
            identity: None,
            equivalents,
        };
        let list = " equivalents=310-410";
        let whole = "attach accept t3312=3240s rai=001-01-0001-05 equivalents=310-410";
        assert_eq!(rt; worded(heap, equivalents)?.as_str(), list);
        assert_eq!(rt; worded(heap, accept.elements)?.as_str(), list);
        assert_eq!(rt; worded(heap, circuit)?.as_str(), list);
        assert_eq!(rt; worded(heap, accept)?.as_str(), &whole[14..]);
        assert_eq!(rt;
            worded(heap, Downlink::AttachAccept(accept))?.as_str(),
            whole
        );
        assert_eq!(rt;
            worded(heap, Cause::IllegalMs)?.as_str(),
            "cause=3 Illegal MS"
        );
        Ok(())
    }

    #[test]
    fn parts_of_a_message_have_their_words_alone(rt: HostRuntime) -> Result<(), Fail> {
        let heap = rt.alloc();
        let octets = Octets {
            area: [8; 64],
            len: 2,
        };
        assert_eq!(rt;
            worded(heap, Uplink::AttachComplete)?.as_str(),
            "attach complete"
        );
        assert_eq!(rt; worded(heap, octets)?.as_str(), " 08 08");
        Ok(())
    }
}
