// The values of the elements that follow the fixed octets.
ghost use Rattle.std.specs.Prelude.{◌≡◌, ◌%◌, ◌≤◌, length};
ghost use Rattle.frames.specs.Values.{tmsi_value, identity_value, signature_value, timer_value, entry, plmns_value};

use crate::{MobileIdentity, PlmnList};
use identities::{Imsi, Signature, Tmsi};
use vocabulary::{Plmn, gprs_seconds};

pub(crate) fn tmsi_value(value: &[u8]) -> Option<Tmsi>
    ensures { result ≡ tmsi_value value.now }
{
    let [0xf4, octets @ ..] = value else {
        return None;
    };
    Tmsi::from_octets(*octets.as_array()?)
}

pub(crate) fn identity_value(value: &[u8]) -> Option<MobileIdentity>
    ensures { result ≡ identity_value value.now }
{
    match value {
        [0xf4, _, _, _, _] => tmsi_value(value).map(MobileIdentity::Tmsi),
        _ => Imsi::from_octets(value).map(MobileIdentity::Imsi),
    }
}

pub(crate) fn signature_value(value: &[u8]) -> Option<Signature>
    ensures { result ≡ signature_value value.now }
{
    Signature::from_octets(*value.as_array()?)
}

pub(crate) fn timer_value(value: &[u8]) -> Option<u32>
    ensures { result ≡ timer_value value.now }
{
    let [octet] = value else {
        return None;
    };
    Some(gprs_seconds(*octet))
}

// The network at a place of a list of whole networks; no entry past its end.
fn entry_at(list: &[u8], place: usize) -> Option<Option<Plmn>>
    requires few { place ≤ 4 }
    requires whole { length list.now % 3 ≡ 0 }
    ensures { result ≡ entry list.now place }
{
    let at = 3 * place;
    if at >= list.len() {
        return Some(None);
    }
    Plmn::from_octets([list[at], list[at + 1], list[at + 2]]).map(Some)
}

pub(crate) fn plmns_value(value: &[u8]) -> Option<PlmnList>
    ensures { result ≡ plmns_value value.now }
{
    if value.is_empty() || value.len() > 15 || value.len() % 3 != 0 {
        return None;
    }
    let mut entries = [None; 5];
    for (place, entry) in entries.iter_mut().enumerate() {
        *entry = entry_at(value, place)?;
    }
    Some(PlmnList { entries })
}
