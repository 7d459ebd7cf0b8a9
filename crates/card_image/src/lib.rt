// The card as an image of 48 octets.
#![tactic(auto)]

mod examples;
mod layout;
mod reading;

pub use examples::worked_images_hold;
pub use layout::image_of;
pub use reading::card_in;
