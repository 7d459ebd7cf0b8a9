// A line of text: a frame in hexadecimal, or a message to be written.
ghost use Rattle.std.specs.Prelude.{◌≡◌, true, false, [], IfOk, None};
ghost use Rattle.lines.specs.Spelling.{spelled};
ghost use Rattle.lines.specs.Asked.{Asks, command};
ghost use Rattle.lines.specs.Writes.{Writes};

use crate::commands::write_line;
use answers::Line;
use spelling::spelled;
use std::alloc::{AllocError, Global};

// The frame that octets in hexadecimal are, or why there are no octets.
fn frame_line(heap: Global, text: &[u8]) -> Result<Line, AllocError>
    ensures value { IfOk result (λ line. Asks line (spelled [] None text.now)) }
{
    match spelled(heap, text) {
        Ok(octets) if octets.is_empty() => Ok(Line::Blank),
        Ok(octets) => Ok(Line::Frame(octets)),
        Err(failed) => Ok(Line::Bad(failed.reason()?.into())),
    }
}

// What a line asks for: a command begins with a `w`, every other line is a frame in hexadecimal.
pub fn line_in(heap: Global, text: &str) -> Result<Line, AllocError>
    ensures written { command text.now ≡ true → IfOk result (Writes text.now) }
    ensures value { command text.now ≡ false → IfOk result (λ line. Asks line (spelled [] None text.now)) }
{
    match text.as_bytes() {
        [b'w', ..] => write_line(heap, text),
        bytes => frame_line(heap, bytes),
    }
}
