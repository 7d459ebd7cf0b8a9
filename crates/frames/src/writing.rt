// Writing the messages of the modem.
ghost use Rattle.std.specs.Prelude.{◌≡◌, IfOk};
ghost use Rattle.frames.specs.Laws.{LaidOut};
ghost use Rattle.frames.specs.Octets.{octets_of};
ghost use Rattle.frames.specs.declared.uplink.Uplink.TheVariants.{AttachRequest, UpdateRequest, LocationRequest, DetachIndication};
ghost use Rattle.frames.specs.Written.{answered, over};

use crate::fields::{
    RequestType, attach_signature, identity, key_and_type, sent_p_tmsi, signature_element,
};
use crate::put::put;
use crate::{
    CircuitStored, LocationUpdate, PacketStored, RoutingUpdate, Terminal, Uplink, WriteFault,
};
use vocabulary::{Lai, Rai};

// One writer for each message with parts; a struct of terminal and area would be made for one call and taken apart in it.
fn attach_request(
    terminal: &Terminal,
    stored: &PacketStored,
    area: &mut [u8],
) -> Result<usize, WriteFault>
    ensures value { result ≡ answered (octets_of (AttachRequest terminal.now stored.now)) area.old }
    ensures after { area.new ≡ over (octets_of (AttachRequest terminal.now stored.now)) area.old }
{
    let p_tmsi = sent_p_tmsi(stored);
    let signature = attach_signature(p_tmsi, stored.signature);
    put(
        &[
            &[0x08, 0x01, 0x02],
            &terminal.capability,
            &[key_and_type(stored.key, RequestType::Attach)],
            &terminal.drx,
            &identity(p_tmsi, stored.imsi),
            &Rai::octets(stored.rai),
            &[0x0c],
            &terminal.radio,
            &signature_element(signature),
        ],
        area,
    )
}

fn update_request(
    update: RoutingUpdate,
    terminal: &Terminal,
    stored: &PacketStored,
    area: &mut [u8],
) -> Result<usize, WriteFault>
    ensures value { result ≡ answered (octets_of (UpdateRequest update terminal.now stored.now)) area.old }
    ensures after { area.new ≡ over (octets_of (UpdateRequest update terminal.now stored.now)) area.old }
{
    put(
        &[
            &[
                0x08,
                0x08,
                key_and_type(stored.key, RequestType::Routing(update)),
            ],
            &Rai::octets(stored.rai),
            &[0x0c],
            &terminal.radio,
            &signature_element(stored.signature),
        ],
        area,
    )
}

fn location_request(
    update: LocationUpdate,
    terminal: &Terminal,
    stored: &CircuitStored,
    area: &mut [u8],
) -> Result<usize, WriteFault>
    ensures value { result ≡ answered (octets_of (LocationRequest update terminal.now stored.now)) area.old }
    ensures after { area.new ≡ over (octets_of (LocationRequest update terminal.now stored.now)) area.old }
{
    put(
        &[
            &[
                0x05,
                0x08,
                key_and_type(stored.key, RequestType::Location(update)),
            ],
            &Lai::octets(stored.lai),
            &[terminal.classmark],
            &identity(stored.tmsi, stored.imsi),
        ],
        area,
    )
}

fn detach_indication(
    terminal: &Terminal,
    stored: &CircuitStored,
    area: &mut [u8],
) -> Result<usize, WriteFault>
    ensures value { result ≡ answered (octets_of (DetachIndication terminal.now stored.now)) area.old }
    ensures after { area.new ≡ over (octets_of (DetachIndication terminal.now stored.now)) area.old }
{
    put(
        &[
            &[0x05, 0x01, terminal.classmark],
            &identity(stored.tmsi, stored.imsi),
        ],
        area,
    )
}

fn put_message(message: &Uplink, area: &mut [u8]) -> Result<usize, WriteFault>
    ensures value { result ≡ answered (octets_of message.now) area.old }
    ensures after { area.new ≡ over (octets_of message.now) area.old }
{
    match message {
        Uplink::AttachRequest(terminal, stored) => attach_request(terminal, stored, area),
        Uplink::AttachComplete => put(&[&[0x08, 0x03]], area),
        Uplink::DetachRequest(kind) => put(&[&[0x08, 0x05, (*kind).into()]], area),
        Uplink::UpdateRequest(update, terminal, stored) => update_request(
            *update, terminal, stored, area,
        ),
        Uplink::UpdateComplete => put(&[&[0x08, 0x0a]], area),
        Uplink::DetachIndication(terminal, stored) => detach_indication(terminal, stored, area),
        Uplink::LocationRequest(update, terminal, stored) => location_request(
            *update, terminal, stored, area,
        ),
        Uplink::TmsiComplete => put(&[&[0x05, 0x1b]], area),
    }
}

// Writes a message to the front of an area and answers its length; every later octet stays as it was.
pub fn write(message: &Uplink, area: &mut [u8]) -> Result<usize, WriteFault>
    ensures value { result ≡ answered (octets_of message.now) area.old }
    ensures after { area.new ≡ over (octets_of message.now) area.old }
    ensures layout { IfOk result (λ n. LaidOut message.now n area.new) }
{
    put_message(message, area)
}
