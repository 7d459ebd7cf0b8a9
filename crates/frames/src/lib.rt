// The frames of registration, after TS 24.008: those that the network sends are read, those that the modem sends are written.
#![tactic(auto)]

mod causes;
mod downlink;
mod element_values;
mod elements;
mod examples;
mod faults;
mod fields;
mod found;
mod put;
mod reading;
mod tags;
mod terminal;
mod uplink;
mod writing;

pub use downlink::{
    Cause, CircuitElements, Downlink, MobileIdentity, PacketAccept, PacketElements, PlmnList,
};
pub use examples::worked_examples_hold;
pub use faults::{ElementFault, FrameFault};
pub use reading::read;
pub use terminal::Terminal;
pub use uplink::{
    CircuitStored, DetachType, LocationUpdate, PacketStored, RoutingUpdate, Uplink, WriteFault,
};
pub use writing::write;
