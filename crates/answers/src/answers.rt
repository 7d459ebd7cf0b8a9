// What is answered to a line.
ghost use Rattle.std.specs.Prelude.{◌≡◌, take};
ghost use Rattle.answers.specs.Answers.{frame_answer, message_answer, answer_to};

use crate::{BadLine, Line};
use frames::{Downlink, Uplink};
use vocabulary::Refusal;

// The octets of a message: the first `len` of the area.
// An area with a length beside it, since an answer is copied and cannot fail, as what is on the heap may.
#[derive(Clone, Copy, PartialEq, Eq, Debug)]
pub struct Octets {
    pub area: [u8; 64],
    pub len: usize,
}

impl Octets {
    pub fn as_slice(&self) -> &[u8]
        ensures value { result.now ≡ take self.now.len self.now.area }
    {
        self.area.get(..self.len).unwrap_or(&self.area)
    }
}

#[derive(Clone, Copy, PartialEq, Eq)]
pub enum Answer {
    Nothing,
    Read(Downlink),
    Refused(Refusal),
    Written(Uplink, Octets),
    Bad(BadLine),
}

// What the octets of a frame say, or why they are refused.
pub fn frame_answer(octets: &[u8]) -> Answer
    ensures value { result ≡ frame_answer octets.now }
{
    match frames::read(octets) {
        Ok(message) => Answer::Read(message),
        Err(fault) => Answer::Refused(fault.into()),
    }
}

#[tactic(auto, using(crate::proofs::Room::room))]
fn message_answer(message: &Uplink) -> Answer
    ensures value { result ≡ message_answer message.now }
{
    let mut area = [0; 64];
    let len = frames::write(message, &mut area).unwrap();
    Answer::Written(*message, Octets { area, len })
}

// The answer to every line.
pub fn answer_to(line: &Line) -> Answer
    ensures value { result ≡ answer_to line.now }
{
    match line {
        Line::Blank => Answer::Nothing,
        Line::Frame(octets) => frame_answer(octets.as_slice()),
        Line::Write(message) => message_answer(message),
        Line::Bad(reason) => Answer::Bad(*reason),
    }
}
