// The words that frames, lists, cards and engine share: places, timers, and how a refusal is told.
#![tactic(auto)]

mod places;
mod refusals;
mod same;
mod shown;
mod timers;
mod values;

pub use refusals::{Layer, Refusal};
pub use same::Place;
pub use timers::gprs_seconds;
pub use values::{Lai, Plmn, Rai};
