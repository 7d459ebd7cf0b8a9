// Who a subscriber is on the air interface: IMSI, TMSI and P-TMSI, P-TMSI signature, and the number of the ciphering key.
#![tactic(auto)]

mod identities;
mod shown;
mod values;

pub use values::{Imsi, KeyNumber, Signature, Tmsi};
