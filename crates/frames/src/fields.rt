// The fields of the messages of the modem.
ghost use Rattle.std.specs.Prelude.{◌≡◌, ◌≤◌};
ghost use Rattle.frames.specs.Octets.{identity_octets, sent_p_tmsi, signature_element, attach_signature, key_and_type, request_type, detach_type};

use crate::{DetachType, LocationUpdate, PacketStored, RoutingUpdate};
use arrayvec::ArrayVec;
use identities::{Imsi, KeyNumber, Signature, Tmsi};

// A P-TMSI goes into a message only if the routing area is stored that it belongs to.
pub(crate) fn sent_p_tmsi(stored: &PacketStored) -> Option<Tmsi>
    ensures value { result ≡ sent_p_tmsi stored.now }
{
    stored.rai.and(stored.p_tmsi)
}

// In an attach request a signature goes only with a P-TMSI.
pub(crate) fn attach_signature(
    p_tmsi: Option<Tmsi>,
    signature: Option<Signature>,
) -> Option<Signature>
    ensures value { result ≡ attach_signature p_tmsi signature }
{
    p_tmsi.and(signature)
}

// The type of a request, which shares its octet with the key number.
#[derive(Clone, Copy)]
pub(crate) enum RequestType {
    Attach,
    Routing(RoutingUpdate),
    Location(LocationUpdate),
}

impl From<RequestType> for u8 {
    ghost from_gives = { λ request half. (half ≡ request_type request) × (half ≤ 15) };

    fn from(request: RequestType) -> u8 {
        match request {
            RequestType::Attach => 1,
            RequestType::Routing(RoutingUpdate::Normal) => 0,
            RequestType::Routing(RoutingUpdate::Periodic) => 3,
            RequestType::Location(LocationUpdate::Normal) => 0,
            RequestType::Location(LocationUpdate::Periodic) => 1,
            RequestType::Location(LocationUpdate::ImsiAttach) => 2,
        }
    }
}

pub(crate) fn key_and_type(key: Option<KeyNumber>, request: RequestType) -> u8
    ensures value { result ≡ key_and_type key (request_type request) }
{
    KeyNumber::written(key) * 16 + u8::from(request)
}

impl From<DetachType> for u8 {
    ghost from_gives = { λ kind octet. octet ≡ detach_type kind };

    fn from(kind: DetachType) -> u8 {
        match kind {
            DetachType::Gprs => 0x01,
            DetachType::SwitchOff => 0x09,
        }
    }
}

// A TMSI, else the IMSI: the first octet is the length, at which what fills the array up is cut off.
pub(crate) fn identity(tmsi: Option<Tmsi>, imsi: Imsi) -> ArrayVec<u8, 9>
    ensures value { result.items ≡ identity_octets tmsi imsi }
{
    let octets = match tmsi {
        Some(tmsi) => {
            let [a, b, c, d] = tmsi.octets();
            [0x05, 0xf4, a, b, c, d, 0xff, 0xff, 0xff]
        }
        None => imsi.octets(),
    };
    let mut identity = ArrayVec::from(octets);
    identity.truncate(usize::from(octets[0]) + 1);
    identity
}

// The signature as an element, where there is one.
pub(crate) fn signature_element(signature: Option<Signature>) -> ArrayVec<u8, 4>
    ensures value { result.items ≡ signature_element signature }
{
    match signature {
        Some(signature) => {
            let [a, b, c] = signature.octets();
            ArrayVec::from([0x19, a, b, c])
        }
        None => ArrayVec::new(),
    }
}
