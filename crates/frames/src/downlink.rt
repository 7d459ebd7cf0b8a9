// What the network sends.
use identities::{Imsi, Signature, Tmsi};
use vocabulary::{Lai, Plmn, Rai};

// Why the network rejects a registration. The names are those of TS 24.008; the numbers stand in specs/Causes.
#[derive(Clone, Copy, PartialEq, Eq, Debug)]
pub enum Cause {
    ImsiUnknownInHlr,
    IllegalMs,
    IllegalMe,
    GprsNotAllowed,
    GprsAndNonGprsNotAllowed,
    IdentityCannotBeDerived,
    ImplicitlyDetached,
    PlmnNotAllowed,
    LocationAreaNotAllowed,
    RoamingNotAllowed,
    GprsNotAllowedInPlmn,
    NoSuitableCells,
    Other(u8),
}

// The identity that a location updating accept gives.
#[derive(Clone, Copy, PartialEq, Eq)]
pub enum MobileIdentity {
    Imsi(Imsi),
    Tmsi(Tmsi),
}

// The networks that the network calls equivalent, in its order: at most five. An array of places, since memory is fixed and the
// value is copied.
#[derive(Clone, Copy, PartialEq, Eq)]
pub struct PlmnList {
    pub entries: [Option<Plmn>; 5],
}

// The elements that may follow on the packet side.
#[derive(Clone, Copy, PartialEq, Eq)]
pub struct PacketElements {
    pub signature: Option<Signature>,
    pub p_tmsi: Option<Tmsi>,
    pub t3302: Option<u32>,
    pub equivalents: Option<PlmnList>,
}

// The elements that may follow on the circuit side.
#[derive(Clone, Copy, PartialEq, Eq)]
pub struct CircuitElements {
    pub identity: Option<MobileIdentity>,
    pub equivalents: Option<PlmnList>,
}

// An attach accept or a routing area update accept; T3312 is in seconds.
#[derive(Clone, Copy, PartialEq, Eq)]
pub struct PacketAccept {
    pub t3312: u32,
    pub rai: Rai,
    pub elements: PacketElements,
}

// A frame that was read whole.
#[derive(Clone, Copy, PartialEq, Eq)]
pub enum Downlink {
    AttachAccept(PacketAccept),
    AttachReject(Cause, PacketElements),
    DetachAccept(PacketElements),
    UpdateAccept(PacketAccept),
    UpdateReject(Cause, PacketElements),
    LocationAccept(Lai, CircuitElements),
    LocationReject(Cause, CircuitElements),
}
