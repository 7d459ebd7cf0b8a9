// Reading the frames of the network: first whether the frame is whole, then its fixed fields, then its elements.
ghost use Rattle.std.specs.Prelude.{◌≡◌, IfOk, Ok, Err, take};
ghost use Rattle.vocabulary.specs.Places.{rai_in};
ghost use Rattle.frames.specs.Decoded.{framed, packet_accept, attach_accept, attach_reject, detach_accept, update_accept, update_reject, location_accept, location_reject, by_kind, decoded};
ghost use Rattle.frames.specs.Laws.{WrongLength, Obeys};
ghost use Rattle.frames.specs.declared.faults.FrameFault.TheVariants.{Length};

use crate::elements::walk;
use crate::found::Found;
use crate::tags::Side;
use crate::{Cause, Downlink, FrameFault, PacketAccept};
use vocabulary::{Lai, Rai, gprs_seconds};

// The fixed octets of a frame, and what is found in the elements after them: it may be cut short in either.
fn parts<const N: usize>(side: Side, frame: &[u8]) -> Result<([u8; N], Found), FrameFault>
    ensures value { result ≡ framed side N frame.now (λ found. Ok (take N frame.now, found)) }
{
    let fixed = frame
        .first_chunk::<N>()
        .ok_or(FrameFault::Cut(frame.len() + 1))?;
    let found = walk(side, frame, N)?;
    Ok((*fixed, found))
}

// What an accept of the packet side says, with its area at an octet.
fn packet_accept(
    found: Found,
    timer: u8,
    area: [u8; 6],
    at: usize,
) -> Result<PacketAccept, FrameFault>
    ensures value { result ≡ packet_accept timer at (rai_in area) found }
{
    let rai = Rai::from_octets(area).ok_or(FrameFault::BadValue(at))?;
    Ok(PacketAccept {
        t3312: gprs_seconds(timer),
        rai,
        elements: found.elements()?,
    })
}

// One reader for each frame. What readers share stands above; what is left is where the fields stand, and the variant. A closure
// for the variant would ask for a contract on what it gives, longer than the readers that it would join.

// The result stands in the low half of its octet.
fn attach_accept(frame: &[u8]) -> Result<Downlink, FrameFault>
    ensures value { result ≡ attach_accept frame.now }
{
    let ([_, _, result, timer, _, a, b, c, d, e, f], found) = parts::<11>(Side::Packet, frame)?;
    let 1 = result % 16 else {
        return Err(FrameFault::BadValue(3));
    };
    let accept = packet_accept(found, timer, [a, b, c, d, e, f], 6)?;
    Ok(Downlink::AttachAccept(accept))
}

// The result stands in the high half of its octet.
fn update_accept(frame: &[u8]) -> Result<Downlink, FrameFault>
    ensures value { result ≡ update_accept frame.now }
{
    let ([_, _, result, timer, a, b, c, d, e, f], found) = parts::<10>(Side::Packet, frame)?;
    let 0 = result / 16 else {
        return Err(FrameFault::BadValue(3));
    };
    let accept = packet_accept(found, timer, [a, b, c, d, e, f], 5)?;
    Ok(Downlink::UpdateAccept(accept))
}

fn attach_reject(frame: &[u8]) -> Result<Downlink, FrameFault>
    ensures value { result ≡ attach_reject frame.now }
{
    let ([_, _, cause], found) = parts::<3>(Side::Packet, frame)?;
    Ok(Downlink::AttachReject(cause.into(), found.elements()?))
}

fn update_reject(frame: &[u8]) -> Result<Downlink, FrameFault>
    ensures value { result ≡ update_reject frame.now }
{
    let ([_, _, cause, _], found) = parts::<4>(Side::Packet, frame)?;
    Ok(Downlink::UpdateReject(cause.into(), found.elements()?))
}

fn detach_accept(frame: &[u8]) -> Result<Downlink, FrameFault>
    ensures value { result ≡ detach_accept frame.now }
{
    let ([_, _, _], found) = parts::<3>(Side::Packet, frame)?;
    Ok(Downlink::DetachAccept(found.elements()?))
}

fn location_accept(frame: &[u8]) -> Result<Downlink, FrameFault>
    ensures value { result ≡ location_accept frame.now }
{
    let ([_, _, a, b, c, d, e], found) = parts::<7>(Side::Circuit, frame)?;
    let lai = Lai::from_octets([a, b, c, d, e]).ok_or(FrameFault::BadValue(3))?;
    Ok(Downlink::LocationAccept(lai, found.elements()?))
}

fn location_reject(frame: &[u8]) -> Result<Downlink, FrameFault>
    ensures value { result ≡ location_reject frame.now }
{
    let ([_, _, cause], found) = parts::<3>(Side::Circuit, frame)?;
    Ok(Downlink::LocationReject(cause.into(), found.elements()?))
}

// What a frame says by its first two octets: the protocol and the type.
fn by_kind(frame: &[u8]) -> Result<Downlink, FrameFault>
    ensures value { result ≡ by_kind frame.now }
{
    match frame {
        [0x08, 0x02, ..] => attach_accept(frame),
        [0x08, 0x04, ..] => attach_reject(frame),
        [0x08, 0x06, ..] => detach_accept(frame),
        [0x08, 0x09, ..] => update_accept(frame),
        [0x08, 0x0b, ..] => update_reject(frame),
        [0x05, 0x02, ..] => location_accept(frame),
        [0x05, 0x04, ..] => location_reject(frame),
        _ => Err(FrameFault::UnknownFrame),
    }
}

// What a frame says, or why it is refused: 11 to 15, in the order of their numbers over the whole frame.
pub fn read(frame: &[u8]) -> Result<Downlink, FrameFault>
    ensures value { result ≡ decoded frame.now }
    ensures refused { WrongLength frame.now → result ≡ Err Length }
    ensures layout { IfOk result (λ m. Obeys m frame.now) }
{
    if frame.len() < 2 || frame.len() > 251 {
        return Err(FrameFault::Length);
    }
    by_kind(frame)
}
