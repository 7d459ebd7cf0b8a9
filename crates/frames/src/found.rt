// What the walk over the elements has found so far.
ghost use Rattle.std.specs.Prelude.{◌≡◌};
ghost use Rattle.std.specs.Option.{option_or};
ghost use Rattle.frames.specs.Elements.{blame, noted, judged, packet_found, circuit_found};

use crate::element_values::{
    identity_value, plmns_value, signature_value, timer_value, tmsi_value,
};
use crate::tags::Known;
use crate::{CircuitElements, ElementFault, MobileIdentity, PacketElements, PlmnList};
use identities::{Signature, Tmsi};

#[derive(Clone, Copy, Default)]
pub(crate) struct Found {
    pub signature: Option<Signature>,
    pub p_tmsi: Option<Tmsi>,
    pub t3302: Option<u32>,
    pub identity: Option<MobileIdentity>,
    pub equivalents: Option<PlmnList>,
    // The tag of the first bad value.
    pub bad: Option<usize>,
    // The first unknown tag below 10.
    pub low: Option<usize>,
}

// The first element of a tag gives the value, and later ones are not looked at. The first bad value keeps the blame.
fn keep_first<T: Drop>(first: &mut Option<T>, new: Option<T>, bad: &mut Option<usize>, at: usize)
    ensures value { first.new ≡ option_or first.old new }
    ensures blamed { bad.new ≡ blame first.old new bad.old at }
{
    if first.is_some() {
        return;
    }
    if new.is_none() {
        *bad = bad.or(Some(at));
    }
    *first = new;
}

impl Found {
    // Looks at the element whose tag stands at an octet.
    pub(crate) fn note(&mut self, known: Known, value: &[u8], at: usize)
        ensures after { self.new ≡ noted known self.old value.now at }
    {
        match known {
            Known::PTmsiSignature => keep_first(
                &mut self.signature,
                signature_value(value),
                &mut self.bad,
                at,
            ),
            Known::PTmsi => keep_first(&mut self.p_tmsi, tmsi_value(value), &mut self.bad, at),
            Known::T3302 => keep_first(&mut self.t3302, timer_value(value), &mut self.bad, at),
            Known::Identity => keep_first(
                &mut self.identity,
                identity_value(value),
                &mut self.bad,
                at,
            ),
            Known::Equivalents => keep_first(
                &mut self.equivalents,
                plmns_value(value),
                &mut self.bad,
                at,
            ),
            Known::Skipped => {}
            Known::BelowTen => self.low = self.low.or(Some(at)),
        }
    }

    // A value, where no element has a fault: a bad value comes before an unknown tag.
    fn judged<T: Drop>(self, value: T) -> Result<T, ElementFault>
        ensures value { result ≡ judged self.bad self.low value }
    {
        if let Some(at) = self.bad {
            return Err(ElementFault::BadValue(at));
        }
        if let Some(at) = self.low {
            return Err(ElementFault::UnknownTag(at));
        }
        Ok(value)
    }

    // The elements of a side, where they are right.
    pub(crate) fn elements<E: From<Found> + Drop>(self) -> Result<E, ElementFault>
        ensures value { (es : E) × E.from_gives self es × (result ≡ judged self.bad self.low es) }
    {
        self.judged(E::from(self))
    }
}

impl From<Found> for PacketElements {
    ghost from_gives = { λ found es. es ≡ packet_found found };

    fn from(found: Found) -> PacketElements {
        PacketElements {
            signature: found.signature,
            p_tmsi: found.p_tmsi,
            t3302: found.t3302,
            equivalents: found.equivalents,
        }
    }
}

impl From<Found> for CircuitElements {
    ghost from_gives = { λ found es. es ≡ circuit_found found };

    fn from(found: Found) -> CircuitElements {
        CircuitElements {
            identity: found.identity,
            equivalents: found.equivalents,
        }
    }
}
