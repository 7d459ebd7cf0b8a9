// What a line of text asks of card stores.
#![tactic(auto)]

mod commands;
mod faults;
mod items;
mod parts;
mod words;

pub use commands::{Command, command_in};
pub use faults::BadCommand;
pub use words::{Kind, Part};
