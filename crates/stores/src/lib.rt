// Where a card is kept: the interface of a store, the plain store, the store over an image, and what is done with any.
#![tactic(auto)]

mod copying;
mod faults;
mod image;
mod laws;
mod plain;
mod steps;
mod stores;
mod trays;

pub use copying::{copy_card, whole_card};
pub use faults::StoreFault;
pub use image::ImageStore;
pub use laws::slot_laws_hold;
pub use plain::PlainStore;
pub use steps::{Step, take_step};
pub use stores::{CardReader, CardStore};
pub use trays::Tray;
