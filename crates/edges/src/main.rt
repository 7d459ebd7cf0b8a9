// The edges of the codec: an answer for each line, and after `cut` for each frame that ends sooner.
#![tactic(auto)]

use answers::{Answer, Line, answer_to, frame_answer};
use lines::line_in;
use shown::Shown;
use std::alloc::Global;
use std::io;

fn show(rt: &HostRuntime, line: &Line) -> io::Result<()> {
    match answer_to(line) {
        Answer::Nothing => Ok(()),
        answer => println!(rt; "{}", Shown(answer)),
    }
}

// The answers to a frame that is cut after each of its octets.
fn show_cuts(rt: &HostRuntime, line: &Line) -> io::Result<()> {
    let Line::Frame(octets) = line else {
        return Ok(());
    };
    let whole = octets.as_slice();
    // Over the lengths, since the library has no iterator over what a slice begins with.
    for len in 1..whole.len() {
        println!(rt; "{len}: {}", Shown(frame_answer(&whole[..len])))?;
    }
    Ok(())
}

fn explain(rt: &HostRuntime, heap: Global, text: &str) -> io::Result<()> {
    match text.strip_prefix("cut ") {
        Some(frame) => {
            let line = line_in(heap, frame)?;
            show(rt, &line)?;
            show_cuts(rt, &line)
        }
        None => show(rt, &line_in(heap, text)?),
    }
}

fn main(rt: HostRuntime) -> io::Result<()> {
    let heap = rt.alloc();
    for text in rt.lines(heap) {
        explain(&rt, heap, text?.as_str())?;
    }
    Ok(())
}
