// What the modem sends.
use crate::Terminal;
use identities::{Imsi, KeyNumber, Signature, Tmsi};
use vocabulary::{Lai, Rai};

// What is stored for the packet side, as far as a request carries it.
#[derive(Clone, Copy, PartialEq, Eq)]
pub struct PacketStored {
    pub imsi: Imsi,
    pub p_tmsi: Option<Tmsi>,
    pub signature: Option<Signature>,
    pub rai: Option<Rai>,
    pub key: Option<KeyNumber>,
}

// What is stored for the circuit side, as far as a request carries it.
#[derive(Clone, Copy, PartialEq, Eq)]
pub struct CircuitStored {
    pub imsi: Imsi,
    pub tmsi: Option<Tmsi>,
    pub lai: Option<Lai>,
    pub key: Option<KeyNumber>,
}

// The types of a routing area update; the numbers stand in specs/Octets.
#[derive(Clone, Copy, PartialEq, Eq, Debug)]
pub enum RoutingUpdate {
    Normal,
    Periodic,
}

// The types of a location update.
#[derive(Clone, Copy, PartialEq, Eq, Debug)]
pub enum LocationUpdate {
    Normal,
    Periodic,
    ImsiAttach,
}

// The types of a packet detach.
#[derive(Clone, Copy, PartialEq, Eq, Debug)]
pub enum DetachType {
    Gprs,
    SwitchOff,
}

// A message to the network.
#[derive(Clone, Copy, PartialEq, Eq)]
pub enum Uplink {
    AttachRequest(Terminal, PacketStored),
    AttachComplete,
    DetachRequest(DetachType),
    UpdateRequest(RoutingUpdate, Terminal, PacketStored),
    UpdateComplete,
    DetachIndication(Terminal, CircuitStored),
    LocationRequest(LocationUpdate, Terminal, CircuitStored),
    TmsiComplete,
}

// Why a message is not written. No number goes with it: it is for the caller in this device alone.
#[derive(Clone, Copy, PartialEq, Eq, Debug)]
pub enum WriteFault {
    NoRoom,
}
