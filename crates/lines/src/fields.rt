// The fields of a message to be written, and the message that they make.
ghost use Rattle.std.specs.Prelude.{◌≡◌, [], ◌∷◌, replicate, MatchOption, None, Ok, Some};
ghost use Rattle.std.specs.Option.{unwrap_or};
ghost use Rattle.lines.specs.Fields.{belongs, packet_of, circuit_of, routing_of, location_of, detach_of, message_of};

use crate::words::{Kind, TypeWord};
use answers::{BadLine, Name};
use frames::{
    CircuitStored, DetachType, LocationUpdate, PacketStored, RoutingUpdate, Terminal, Uplink,
};
use identities::{Imsi, KeyNumber, Signature, Tmsi};
use vocabulary::{Lai, Rai};

// What a line gives; a key that is given may still be none.
#[derive(Clone, Copy, Default)]
pub(crate) struct Fields {
    pub imsi: Option<Imsi>,
    pub tmsi: Option<Tmsi>,
    pub signature: Option<Signature>,
    pub rai: Option<Rai>,
    pub lai: Option<Lai>,
    pub key: Option<Option<KeyNumber>>,
    pub word: Option<TypeWord>,
    pub classmark: Option<u8>,
    pub capability: Option<[u8; 2]>,
    pub drx: Option<[u8; 2]>,
    pub radio: Option<[u8; 12]>,
}

// The fields that a message has a use for.
pub(crate) fn belongs(kind: Kind, name: Name) -> bool
    ensures value { result ≡ belongs kind name }
{
    match (kind, name) {
        (Kind::Attach, Name::Lai | Name::Type) => false,
        (Kind::Attach, _) => true,
        (Kind::Update, Name::Lai) => false,
        (Kind::Update, _) => true,
        (Kind::Location, Name::Rai | Name::Signature) => false,
        (Kind::Location, _) => true,
        (Kind::Indication, Name::Rai | Name::Signature | Name::Type) => false,
        (Kind::Indication, _) => true,
        (Kind::Detach, Name::Type) => true,
        _ => false,
    }
}

// The terminal of a line, each field left out by its default.
pub(crate) fn terminal_of(fields: &Fields) -> Terminal
    ensures classmark { result.classmark ≡ unwrap_or fields.now.classmark 0x33 }
    ensures capability { result.capability ≡ unwrap_or fields.now.capability (0xe0 ∷ 0x00 ∷ []) }
    ensures drx { result.drx ≡ unwrap_or fields.now.drx (0x00 ∷ 0x00 ∷ []) }
    ensures radio { result.radio ≡ unwrap_or fields.now.radio (replicate 12 0x00) }
{
    Terminal {
        classmark: fields.classmark.unwrap_or(0x33),
        capability: fields.capability.unwrap_or([0xe0, 0x00]),
        drx: fields.drx.unwrap_or([0x00, 0x00]),
        radio: fields.radio.unwrap_or([0x00; 12]),
    }
}

fn key_of(fields: &Fields) -> Option<KeyNumber>
    ensures value { result ≡ unwrap_or fields.now.key None }
{
    fields.key.unwrap_or(None)
}

fn packet_of(fields: &Fields) -> Result<PacketStored, BadLine>
    ensures value { result ≡ packet_of fields.now }
{
    Ok(PacketStored {
        imsi: fields.imsi.ok_or(BadLine::NoImsi)?,
        p_tmsi: fields.tmsi,
        signature: fields.signature,
        rai: fields.rai,
        key: key_of(fields),
    })
}

fn circuit_of(fields: &Fields) -> Result<CircuitStored, BadLine>
    ensures value { result ≡ circuit_of fields.now }
{
    Ok(CircuitStored {
        imsi: fields.imsi.ok_or(BadLine::NoImsi)?,
        tmsi: fields.tmsi,
        lai: fields.lai,
        key: key_of(fields),
    })
}

// A table for each kind of message, since each has words of its own.
impl TryFrom<TypeWord> for RoutingUpdate {
    type Error = BadLine;

    ghost try_from_gives = { λ word result. result ≡ routing_of (Some word) };

    fn try_from(word: TypeWord) -> Result<RoutingUpdate, BadLine> {
        match word {
            TypeWord::Normal => Ok(RoutingUpdate::Normal),
            TypeWord::Periodic => Ok(RoutingUpdate::Periodic),
            _ => Err(BadLine::BadValue(Name::Type)),
        }
    }
}

impl TryFrom<TypeWord> for LocationUpdate {
    type Error = BadLine;

    ghost try_from_gives = { λ word result. result ≡ location_of (Some word) };

    fn try_from(word: TypeWord) -> Result<LocationUpdate, BadLine> {
        match word {
            TypeWord::Normal => Ok(LocationUpdate::Normal),
            TypeWord::Periodic => Ok(LocationUpdate::Periodic),
            TypeWord::ImsiAttach => Ok(LocationUpdate::ImsiAttach),
            _ => Err(BadLine::BadValue(Name::Type)),
        }
    }
}

impl TryFrom<TypeWord> for DetachType {
    type Error = BadLine;

    ghost try_from_gives = { λ word result. result ≡ detach_of (Some word) };

    fn try_from(word: TypeWord) -> Result<DetachType, BadLine> {
        match word {
            TypeWord::Gprs => Ok(DetachType::Gprs),
            TypeWord::SwitchOff => Ok(DetachType::SwitchOff),
            _ => Err(BadLine::BadValue(Name::Type)),
        }
    }
}

// The type that a word names; where it is left out, the usual one.
fn type_of<T: TryFrom<TypeWord, Error = BadLine> + Drop>(
    word: Option<TypeWord>,
    usual: T,
) -> Result<T, BadLine>
    ensures value { MatchOption word (result ≡ Ok usual) (λ w. T.try_from_gives w result) }
{
    match word {
        None => Ok(usual),
        Some(word) => T::try_from(word),
    }
}

// The message that a line asks for, where its terminal is given.
pub(crate) fn message_of(kind: Kind, fields: &Fields, terminal: Terminal) -> Result<Uplink, BadLine>
    ensures value { result ≡ message_of kind fields.now terminal }
{
    match kind {
        Kind::Attach => Ok(Uplink::AttachRequest(terminal, packet_of(fields)?)),
        Kind::Update => {
            let update = type_of(fields.word, RoutingUpdate::Normal)?;
            Ok(Uplink::UpdateRequest(update, terminal, packet_of(fields)?))
        }
        Kind::Location => {
            let update = type_of(fields.word, LocationUpdate::Normal)?;
            Ok(Uplink::LocationRequest(update, terminal, circuit_of(fields)?))
        }
        Kind::Detach => Ok(Uplink::DetachRequest(type_of(fields.word, DetachType::Gprs)?)),
        Kind::Indication => Ok(Uplink::DetachIndication(terminal, circuit_of(fields)?)),
        Kind::AttachComplete => Ok(Uplink::AttachComplete),
        Kind::UpdateComplete => Ok(Uplink::UpdateComplete),
        Kind::TmsiComplete => Ok(Uplink::TmsiComplete),
    }
}
