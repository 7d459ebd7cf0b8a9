// The networks that are as good as the one that accepted the modem.
ghost use Rattle.std.specs.Prelude.{◌≡◌, ◌+◌, ◌<◌, ◌≤◌, true, [], length};
ghost use Rattle.vocabulary.specs.Same.{same_plmn};
ghost use Rattle.lists.specs.Lists.{distinct};
ghost use Rattle.lists.specs.Equivalents.{followed_by, kept_one, equivalents_from, given_entries};
ghost use Rattle.lists.specs.Laws.{Equates};

use crate::{PlmnBar, Recent};
use std::marker::Model;
use vocabulary::Plmn;

// At most six networks: those that an accept gives, and last the one that accepts unless it is among them.
#[derive(Clone, Copy)]
pub struct EquivalentPlmns {
    networks: Recent<Plmn, 6>,
}

// Their value is the list. They have a model since the list has one: else they could not be passed by value and used again.
impl Model for EquivalentPlmns {
    ghost use Rattle.lists.specs.Equivalents.{Equivalents};

    ghost Value = { Equivalents };

    ghost view = { λ equivalents. record { networks = equivalents.networks } };

    ghost inverse = { λ equivalents. record { networks = equivalents.networks } };
}

impl EquivalentPlmns {
    pub fn empty() -> EquivalentPlmns
        ensures value { result.networks ≡ [] }
    {
        EquivalentPlmns {
            networks: Recent::empty(),
        }
    }

    // The networks in the order in which they were given, and last the accepted one if it was not among them.
    pub fn entries(&self) -> &[Plmn]
        ensures value { result.now ≡ self.now.networks }
        ensures bound { length result.now ≤ 6 }
        ensures once { distinct same_plmn result.now ≡ true }
    {
        self.networks.entries()
    }

    // The list that an accept makes: of the networks that it gives, those that are not forbidden, none twice, and last
    // the network that accepts, unless it is among them.
    pub fn new(given: &[Option<Plmn>; 5], forbidden: &PlmnBar, accepted: Plmn) -> EquivalentPlmns
        ensures value { result.networks ≡ equivalents_from given.now forbidden.now accepted }
        ensures law { Equates (given_entries given.now) forbidden.now accepted result.networks }
    {
        let mut networks = Recent::empty();
        for entry in given {
            keep(&mut networks, *entry, forbidden);
        }
        follow(&mut networks, accepted);
        EquivalentPlmns { networks }
    }
}

// Takes up an entry of an accept, unless its network is there or forbidden.
fn keep(networks: &mut Recent<Plmn, 6>, entry: Option<Plmn>, forbidden: &PlmnBar)
    requires room { length networks.old < 6 }
    ensures after { networks.new ≡ kept_one forbidden.now networks.old entry }
    ensures bound { length networks.new ≤ length networks.old + 1 }
{
    if let Some(plmn) = entry {
        if !forbidden.contains(&plmn) {
            follow(networks, plmn);
        }
    }
}

// Makes a network the last, unless it is there.
fn follow(networks: &mut Recent<Plmn, 6>, plmn: Plmn)
    requires room { length networks.old < 6 }
    ensures after { networks.new ≡ followed_by networks.old plmn }
    ensures bound { length networks.new ≤ length networks.old + 1 }
{
    networks.add(plmn);
}
