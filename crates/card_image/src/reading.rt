// Reading the image of a card: the only card that may be written as these octets, if it is written so.
ghost use Rattle.std.specs.Prelude.{◌≡◌, ◌+◌, ◌<◌, ◌≤◌, Some};
ghost use Rattle.card_image.specs.Meaning.{part_at, plmn_at, status_at, imsi_at_front, packet_in, circuit_in, added_some, forbidden_in, likely, only_written_so, contents_in, Means};

use crate::layout::image_of;
use card::{Card, PacketRecord, Record, Status};
use identities::{Imsi, KeyNumber, Signature, Tmsi};
use lists::{PlmnBar, Recent};
use std::array;
use vocabulary::{Lai, Plmn, Rai};

// The octets from a place on, as many as are asked for.
fn part_at<const N: usize>(image: &[u8; 48], at: usize) -> [u8; N]
    requires { at + N ≤ 48 }
    ensures { result ≡ part_at N image.now at }
{
    let mut part = [0; N];
    part.copy_from_slice(&image[at..at + N]);
    part
}

// A status is written as one less than its number.
fn status_at(image: &[u8; 48], at: usize) -> Option<Status>
    requires { at < 48 }
    ensures { result ≡ status_at image.now at }
{
    Status::try_from(image[at].checked_add(1)?).ok()
}

fn imsi_at_front(image: &[u8; 48]) -> Option<Imsi>
    ensures { result ≡ imsi_at_front image.now }
{
    let end = usize::from(image[0]).min(8) + 1;
    Imsi::from_octets(&image[1..end])
}

fn packet_in(image: &[u8; 48], status: Status) -> PacketRecord
    ensures value { result ≡ packet_in image.now status }
{
    PacketRecord {
        base: Record {
            status,
            identity: Tmsi::from_octets(part_at(image, 9)),
            area: Rai::from_octets(part_at(image, 16)),
            key: KeyNumber::new(image[46]),
        },
        signature: Signature::from_octets(part_at(image, 13)),
    }
}

fn circuit_in(image: &[u8; 48], status: Status) -> Record<Lai>
    ensures value { result ≡ circuit_in image.now status }
{
    Record {
        status,
        identity: Tmsi::from_octets(part_at(image, 23)),
        area: Lai::from_octets(part_at(image, 27)),
        key: KeyNumber::new(image[47]),
    }
}

fn add_some(list: &mut PlmnBar, plmn: Option<Plmn>)
    ensures after { list.new ≡ added_some list.old plmn }
{
    if let Some(plmn) = plmn {
        list.add(plmn);
    }
}

fn forbidden_in(image: &[u8; 48]) -> PlmnBar
    ensures value { result ≡ forbidden_in image.now }
{
    let places: [Option<Plmn>; 4] = array::from_fn(|place| {
        Plmn::from_octets(part_at(image, 34 + 3 * place))
    });
    let mut list = Recent::empty();
    for plmn in places {
        add_some(&mut list, plmn);
    }
    list
}

fn likely(image: &[u8; 48]) -> Option<Card>
    ensures value { result ≡ likely image.now }
{
    let imsi = imsi_at_front(image)?;
    let packet_status = status_at(image, 22)?;
    let circuit_status = status_at(image, 33)?;
    Some(Card {
        imsi,
        packet: packet_in(image, packet_status),
        circuit: circuit_in(image, circuit_status),
        forbidden: forbidden_in(image),
    })
}

// The card, if it is written as these octets.
fn if_written_so(card: Card, image: &[u8; 48]) -> Option<Card>
    ensures value { result ≡ only_written_so image.now (Some card) }
{
    (image_of(&card) == *image).then_some(card)
}

// The card that these octets are the image of; none where no card is written so.
pub fn card_in(image: &[u8; 48]) -> Option<Card>
    ensures value { result ≡ contents_in image.now }
    ensures means { Means image.now result }
{
    let card = likely(image)?;
    if_written_so(card, image)
}
