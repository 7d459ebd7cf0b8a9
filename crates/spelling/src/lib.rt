// What a text spells: octets in hexadecimal, decimal digits, and the words of a line.
#![tactic(auto)]

mod digit;
mod digits;
mod failed;
mod octets;
mod sized;
mod words;

pub use digits::digits_in;
pub use failed::Failed;
pub use octets::{Misspelled, octets_or_none, spelled};
pub use sized::octets_in;
pub use words::words_in;
