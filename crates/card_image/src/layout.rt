// Writing the image of a card.
ghost use Rattle.std.specs.Prelude.{◌≡◌, ◌+◌, ◌≤◌, true, ◌++◌, length, take, Some};
ghost use Rattle.std.specs.Option.{option_map};
ghost use Rattle.vocabulary.specs.Same.{same_plmn};
ghost use Rattle.lists.specs.Lists.{distinct};
ghost use Rattle.card.specs.declared.values.Card.{Card};
ghost use Rattle.card_image.specs.Meaning.{contents_in, area_fits, lawful_contents};
ghost use Rattle.card_image.specs.Layout.{status_written, identity_bits, signature_bits, packet_octets, circuit_octets, place_octets, forbidden_octets, image};
ghost use Rattle.identities.specs.Identities.{four_octets, three_octets};

use arrayvec::ArrayVec;
use card::{Card, PacketRecord, Record, Status};
use identities::{KeyNumber, Signature, Tmsi};
use lists::PlmnBar;
use vocabulary::{Lai, Plmn, Rai};

// A status is written as one less than its number.
fn status_written(status: Status) -> u8
    ensures { result ≡ status_written status }
{
    u8::from(status) - 1
}

// Two functions of two arms: with `map_or` the proof did not close, and one function would need a trait for their octets.
fn identity_octets(identity: Option<Tmsi>) -> [u8; 4]
    ensures value { result ≡ four_octets (identity_bits identity) }
{
    match identity {
        Some(tmsi) => tmsi.octets(),
        None => [0xff; 4],
    }
}

fn signature_octets(signature: Option<Signature>) -> [u8; 3]
    ensures value { result ≡ three_octets (signature_bits signature) }
{
    match signature {
        Some(signature) => signature.octets(),
        None => [0xff; 3],
    }
}

fn packet_octets(packet: &PacketRecord) -> [u8; 14]
    ensures value { result ≡ packet_octets packet.now }
    ensures fits { area_fits (option_map (λ a. a.lai) packet.now.base.area) ≡ true }
{
    let [a, b, c, d] = identity_octets(packet.base.identity);
    let [e, f, g] = signature_octets(packet.signature);
    let [h, i, j, k, l, m] = Rai::octets(packet.base.area);
    let n = status_written(packet.base.status);
    [a, b, c, d, e, f, g, h, i, j, k, l, m, n]
}

fn circuit_octets(circuit: &Record<Lai>) -> [u8; 11]
    ensures value { result ≡ circuit_octets circuit.now }
    ensures fits { area_fits circuit.now.area ≡ true }
{
    let [a, b, c, d] = identity_octets(circuit.identity);
    let [e, f, g, h, i] = Lai::octets(circuit.area);
    let k = status_written(circuit.status);
    [a, b, c, d, e, f, g, h, i, 0xff, k]
}

// The octets of a place of the list: of the network that stands there, or FF FF FF.
fn place_octets(list: &[Plmn], place: usize) -> [u8; 3]
    ensures value { result ≡ place_octets list.now place }
{
    match list.get(place) {
        Some(plmn) => plmn.octets(),
        None => [0xff; 3],
    }
}

fn forbidden_octets(forbidden: &PlmnBar) -> [u8; 12]
    ensures value { result ≡ forbidden_octets forbidden.now }
    ensures bound { length forbidden.now ≤ 4 }
    ensures once { distinct same_plmn forbidden.now ≡ true }
{
    let list = forbidden.entries();
    let mut places = [[0xff; 3]; 4];
    for (place, octets) in places.iter_mut().enumerate() {
        *octets = place_octets(list, place);
    }
    let [[a, b, c], [d, e, f], [g, h, i], [j, k, l]] = places;
    [a, b, c, d, e, f, g, h, i, j, k, l]
}

// The parts one behind the other.
fn joined(
    imsi: [u8; 9],
    packet: [u8; 14],
    circuit: [u8; 11],
    forbidden: [u8; 12],
    keys: [u8; 2],
) -> [u8; 48]
    ensures value { result ≡ imsi ++ (packet ++ (circuit ++ (forbidden ++ keys))) }
{
    let mut image = ArrayVec::<u8, 48>::new();
    image.try_extend_from_slice(&imsi).unwrap();
    image.try_extend_from_slice(&packet).unwrap();
    image.try_extend_from_slice(&circuit).unwrap();
    image.try_extend_from_slice(&forbidden).unwrap();
    image.try_extend_from_slice(&keys).unwrap();
    image.into_inner().unwrap()
}

// The 48 octets that a card is written as. They mean this card, and no other is written so.
pub fn image_of(card: &Card) -> [u8; 48]
    ensures value { result ≡ image card.now }
    ensures back { contents_in result ≡ Some card.now }
    ensures unique { (other : Card) → lawful_contents other ≡ true → image other ≡ result → other ≡ card.now }
{
    joined(
        card.imsi.octets(),
        packet_octets(&card.packet),
        circuit_octets(&card.circuit),
        forbidden_octets(&card.forbidden),
        [
            KeyNumber::written(card.packet.base.key),
            KeyNumber::written(card.circuit.key),
        ],
    )
}
