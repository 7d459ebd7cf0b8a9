// The card: what it holds, and how one that comes from outside is checked.
#![tactic(auto)]

mod checking;
mod fields;
mod parts;
mod statuses;
mod values;

pub use fields::{CardFields, RecordFields, Unlawful};
pub use values::{Card, PacketRecord, Record, Status};
