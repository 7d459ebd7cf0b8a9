// The parts of a card that a line gives, with nothing checked but their form.
use crate::items::{Items, identity_bits, signature_bits};
use crate::{BadCommand, Part};
use card::{CardFields, RecordFields, Status};
use identities::KeyNumber;
use spelling::{Failed, digits_in};
use std::alloc::Global;

#[derive(Clone, Copy)]
struct PacketFields {
    base: RecordFields<[u8; 6]>,
    signature: Option<u32>,
}

#[derive(Default, Drop)]
pub(crate) struct Parts {
    imsi: Option<Vec<u8>>,
    packet: Option<PacketFields>,
    circuit: Option<RecordFields<[u8; 5]>>,
    forbidden: Option<Vec<[u8; 3]>>,
}

impl Items {
    // The items that the records of both sides have. The numbers first, so that no octets are spelled where one of these is bad.
    fn record<const N: usize>(
        self,
        [status, identity, area, key]: [&str; 4],
    ) -> Result<RecordFields<[u8; N]>, Failed<BadCommand>> {
        Ok(RecordFields {
            status: self.number(status)?,
            key: self.number(key)?,
            identity: self.octets_or_dash(identity)?.map(identity_bits),
            area: self.octets_or_dash(area)?,
        })
    }

    // STATUS,IDENTITY,SIGNATURE,RAI,KEY. Split here and in `circuit`, since an array of borrowed words gets no proof as a result.
    fn packet(self, text: &str) -> Result<PacketFields, Failed<BadCommand>> {
        let words = text.split(',').collect::<Vec<&str>>(self.heap)?;
        let [status, identity, signature, area, key] = words.as_slice() else {
            return Err(self.fault.into());
        };
        Ok(PacketFields {
            base: self.record([status, identity, area, key])?,
            signature: self.octets_or_dash(signature)?.map(signature_bits),
        })
    }

    // STATUS,IDENTITY,LAI,KEY
    fn circuit(self, text: &str) -> Result<RecordFields<[u8; 5]>, Failed<BadCommand>> {
        let words = text.split(',').collect::<Vec<&str>>(self.heap)?;
        let [status, identity, area, key] = words.as_slice() else {
            return Err(self.fault.into());
        };
        self.record([status, identity, area, key])
    }

    // Networks with commas between them, or `-` for none.
    fn forbidden(self, text: &str) -> Result<Vec<[u8; 3]>, Failed<BadCommand>> {
        let mut plmns = Vec::new(self.heap);
        if text != "-" {
            for item in text.split(',') {
                plmns.push(self.octets(item)?)?;
            }
        }
        Ok(plmns)
    }
}

// A record of a card that was never registered.
fn blank<O>() -> RecordFields<O> {
    RecordFields {
        status: Status::NotUpdated.into(),
        identity: None,
        area: None,
        key: KeyNumber::written(None),
    }
}

impl Parts {
    pub(crate) fn has(&self, part: Part) -> bool {
        match part {
            Part::Imsi => self.imsi.is_some(),
            Part::Packet => self.packet.is_some(),
            Part::Circuit => self.circuit.is_some(),
            Part::Forbidden => self.forbidden.is_some(),
        }
    }

    // One word of a card, `part=value`.
    pub(crate) fn take(&mut self, heap: Global, word: &str) -> Result<(), Failed<BadCommand>> {
        let (name, value) = word.split_once('=').ok_or(BadCommand::NoValue)?;
        let part = name.parse()?;
        if self.has(part) {
            return Err(BadCommand::RepeatedPart(part).into());
        }
        let fault = BadCommand::BadPart(part);
        let items = Items { heap, fault };
        match part {
            Part::Imsi => self.imsi = Some(digits_in(heap, value.as_bytes())?),
            Part::Packet => self.packet = Some(items.packet(value)?),
            Part::Circuit => self.circuit = Some(items.circuit(value)?),
            Part::Forbidden => self.forbidden = Some(items.forbidden(value)?),
        }
        Ok(())
    }

    // The fields of a card with these parts, blank where none is given.
    pub(crate) fn fields(&self) -> CardFields<'_> {
        let imsi = match &self.imsi {
            Some(digits) => digits.as_slice(),
            None => &[0, 0, 0, 0, 0, 0],
        };
        let forbidden = match &self.forbidden {
            Some(plmns) => plmns.as_slice(),
            None => &[],
        };
        let packet = self.packet.unwrap_or(PacketFields {
            base: blank(),
            signature: None,
        });
        CardFields {
            imsi,
            packet: packet.base,
            signature: packet.signature,
            circuit: self.circuit.unwrap_or(blank()),
            forbidden,
        }
    }
}
