// Cards and images as they are given on a line.
use card::{Card, PacketRecord, Record};
use identities::KeyNumber;
use std::fmt;
use vocabulary::{Lai, Plmn, Rai};

// A value in the words in which a line gives it.
#[derive(Clone, Copy)]
pub(crate) struct Given<T>(pub T);

// Octets in hexadecimal.
#[derive(Clone, Copy)]
pub(crate) struct Hex<const N: usize>(pub [u8; N]);

// What may be none.
#[derive(Clone, Copy)]
struct OrDash<T>(Option<T>);

impl<const N: usize> fmt::Display for Hex<N> {
    fn fmt<W: fmt::Write>(&self, f: &mut fmt::Formatter<W>) -> fmt::Result {
        for octet in &self.0 {
            write!(f, "{octet:02X}")?;
        }
        Ok(())
    }
}

impl<T: fmt::Display> fmt::Display for OrDash<T> {
    fn fmt<W: fmt::Write>(&self, f: &mut fmt::Formatter<W>) -> fmt::Result {
        match &self.0 {
            Some(value) => write!(f, "{value}"),
            None => write!(f, "-"),
        }
    }
}

impl fmt::Display for Given<PacketRecord> {
    fn fmt<W: fmt::Write>(&self, f: &mut fmt::Formatter<W>) -> fmt::Result {
        let PacketRecord { base, signature } = self.0;
        let status = u8::from(base.status);
        let identity = OrDash(base.identity.map(|tmsi| Hex(tmsi.octets())));
        let signature = OrDash(signature.map(|signature| Hex(signature.octets())));
        let area = OrDash(base.area.map(|rai| Hex(Rai::octets(Some(rai)))));
        let key = KeyNumber::written(base.key);
        write!(f, "{status},{identity},{signature},{area},{key}")
    }
}

impl fmt::Display for Given<Record<Lai>> {
    fn fmt<W: fmt::Write>(&self, f: &mut fmt::Formatter<W>) -> fmt::Result {
        let record = self.0;
        let status = u8::from(record.status);
        let identity = OrDash(record.identity.map(|tmsi| Hex(tmsi.octets())));
        let area = OrDash(record.area.map(|lai| Hex(Lai::octets(Some(lai)))));
        let key = KeyNumber::written(record.key);
        write!(f, "{status},{identity},{area},{key}")
    }
}

impl fmt::Display for Given<&[Plmn]> {
    fn fmt<W: fmt::Write>(&self, f: &mut fmt::Formatter<W>) -> fmt::Result {
        let Some((first, rest)) = self.0.split_first() else {
            return write!(f, "-");
        };
        write!(f, "{}", Hex(first.octets()))?;
        for plmn in rest {
            write!(f, ",{}", Hex(plmn.octets()))?;
        }
        Ok(())
    }
}

impl fmt::Display for Given<Card> {
    fn fmt<W: fmt::Write>(&self, f: &mut fmt::Formatter<W>) -> fmt::Result {
        let card = &self.0;
        let packet = Given(card.packet);
        let circuit = Given(card.circuit);
        let forbidden = Given(card.forbidden.entries());
        write!(
            f,
            "imsi={} packet={packet} circuit={circuit} forbidden={forbidden}",
            card.imsi
        )
    }
}
