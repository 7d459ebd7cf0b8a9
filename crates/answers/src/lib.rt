// What a line may ask for, and what is answered to it.
#![tactic(auto)]

mod answers;
mod asked;

pub use answers::{Answer, Octets, answer_to, frame_answer};
pub use asked::{BadLine, Line, Name};
