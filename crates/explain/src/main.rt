// Explains frames of the network and writes messages of the modem: a line of output for each line of input that is not blank.
#![tactic(auto)]

use answers::{Answer, answer_to};
use lines::line_in;
use shown::Shown;
use std::io;

fn main(rt: HostRuntime) -> io::Result<()> {
    let heap = rt.alloc();
    for (number, text) in (1u64..).zip(rt.lines(heap)) {
        match answer_to(&line_in(heap, text?.as_str())?) {
            Answer::Nothing => {}
            Answer::Bad(reason) => println!(rt; "line {number}: {reason}")?,
            answer => println!(rt; "{}", Shown(answer))?,
        }
    }
    Ok(())
}
