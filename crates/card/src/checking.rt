// Making a lawful card of what is given.
ghost use Rattle.std.specs.Prelude.{◌≡◌, IfOk};
ghost use Rattle.std.specs.Option.{ok_or};
ghost use Rattle.card.specs.declared.fields.Unlawful.TheVariants as unlawful;
ghost use Rattle.card.specs.Given.{given, key_of, record_from, packet_from, one_more, forbidden_from, card_from};
ghost use Rattle.card.specs.Laws.{Keeps};
ghost use Rattle.card.specs.Numbers.{unlawful_refusal};

use crate::parts::{Part, part_of};
use crate::{Card, CardFields, PacketRecord, Record, RecordFields, Status, Unlawful};
use identities::{Imsi, KeyNumber};
use lists::{PlmnBar, Recent};
use vocabulary::{Layer, Plmn, Refusal};

// A key by its number, of which 7 is none.
fn key_of(number: u8) -> Result<Option<KeyNumber>, Unlawful>
    ensures { result ≡ ok_or (key_of number) unlawful.Key }
{
    if number > 7 {
        return Err(Unlawful::Key);
    }
    Ok(KeyNumber::new(number))
}

// A record of either side: they differ in the kind of their areas.
fn record_from<A: Part + Copy>(fields: &RecordFields<A::Given>) -> Result<Record<A>, Unlawful>
where
    A::Given: Copy,
    ensures value { result ≡ record_from A.read fields.now }
{
    let status = Status::try_from(fields.status)?;
    let identity = part_of(fields.identity, Unlawful::Identity)?;
    let area = part_of(fields.area, Unlawful::Area)?;
    let key = key_of(fields.key)?;
    Ok(Record {
        status,
        identity,
        area,
        key,
    })
}

fn packet_from(
    fields: &RecordFields<[u8; 6]>,
    signature: Option<u32>,
) -> Result<PacketRecord, Unlawful>
    ensures value { result ≡ packet_from fields.now signature }
{
    let base = record_from(fields)?;
    let signature = part_of(signature, Unlawful::Signature)?;
    Ok(PacketRecord { base, signature })
}

// A list with one network more, where it is lawful, new to the list, and not the fifth.
fn one_more(list: PlmnBar, given: [u8; 3]) -> Option<PlmnBar>
    ensures value { result ≡ one_more list given }
{
    let plmn = Plmn::from_octets(given)?;
    if list.contains(&plmn) || list.entries().len() >= 4 {
        return None;
    }
    let mut longer = list;
    longer.add(plmn);
    Some(longer)
}

fn forbidden_from(given: &[[u8; 3]]) -> Option<PlmnBar>
    ensures value { result ≡ forbidden_from given.now }
{
    let mut list = Recent::empty();
    for octets in given {
        list = one_more(list, *octets)?;
    }
    Some(list)
}

impl Card {
    // The card that is given, or the first of its parts that is not lawful. A card that is made holds what was given.
    pub fn from_fields(fields: &CardFields) -> Result<Card, Unlawful>
        ensures value { result ≡ card_from (given fields.now) }
        ensures kept { IfOk result (λ card. Keeps (given fields.now) card) }
    {
        let imsi = Imsi::from_digits(fields.imsi).ok_or(Unlawful::Imsi)?;
        let packet = packet_from(&fields.packet, fields.signature)?;
        let circuit = record_from(&fields.circuit)?;
        let forbidden = forbidden_from(fields.forbidden).ok_or(Unlawful::Forbidden)?;
        Ok(Card {
            imsi,
            packet,
            circuit,
            forbidden,
        })
    }
}

// The number, the layer and the octet that the host is told.
impl From<Unlawful> for Refusal {
    ghost from_gives = { λ fault refusal. refusal ≡ unlawful_refusal fault };

    fn from(_fault: Unlawful) -> Refusal {
        Refusal {
            number: 5,
            layer: Layer::Engine,
            octet: 0,
        }
    }
}
