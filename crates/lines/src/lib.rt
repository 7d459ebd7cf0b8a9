// What a line of text asks for: a frame in hexadecimal, or a message given by its fields.
#![tactic(auto)]

mod commands;
mod fields;
mod texts;
mod values;
mod words;

pub use texts::line_in;
