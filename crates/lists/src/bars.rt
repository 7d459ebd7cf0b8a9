// Which cells are barred to which side.
ghost use Rattle.std.specs.Prelude.{◌≡◌, ◌⊎◌, [], Decides};
ghost use Rattle.std.specs.List.{ContainsAt as Has};
ghost use Rattle.lists.specs.Bars.{barred_circuit, barred_packet};

use crate::{AreaBar, PlmnBar, Recent};
use std::marker::Model;
use vocabulary::Lai;

// The lists that bar cells, beside that of the forbidden networks.
#[derive(Clone, Copy)]
pub struct Bars {
    pub gprs: PlmnBar,
    pub regional: AreaBar,
    pub roaming: AreaBar,
}

// Their value is the lists. They have a model since each list has one: else they could not be passed by value and used again.
impl Model for Bars {
    ghost use Rattle.lists.specs.Bars.{Barring};

    ghost Value = { Barring };

    ghost view = { λ bars. record { gprs = bars.gprs; regional = bars.regional; roaming = bars.roaming } };

    ghost inverse = { λ bars. record { gprs = bars.gprs; regional = bars.regional; roaming = bars.roaming } };
}

impl Bars {
    // Nothing is barred.
    pub fn none() -> Bars
        ensures gprs { result.gprs ≡ [] }
        ensures regional { result.regional ≡ [] }
        ensures roaming { result.roaming ≡ [] }
    {
        Bars {
            gprs: Recent::empty(),
            regional: Recent::empty(),
            roaming: Recent::empty(),
        }
    }

    // Whether a cell is barred to the circuit side: its network is forbidden, or its area is on a list of areas.
    pub fn to_circuit(&self, forbidden: &PlmnBar, cell: Lai) -> bool
        ensures value { result ≡ barred_circuit forbidden.now self.now.regional self.now.roaming cell }
        ensures law { Decides result (Has forbidden.now cell.plmn ⊎ (Has self.now.regional cell ⊎ Has self.now.roaming cell)) }
    {
        forbidden.contains(&cell.plmn)
            || self.regional.contains(&cell)
            || self.roaming.contains(&cell)
    }

    // Whether a cell is barred to the packet side: also where the network is forbidden for GPRS.
    pub fn to_packet(&self, forbidden: &PlmnBar, cell: Lai) -> bool
        ensures value { result ≡ barred_packet forbidden.now self.now.gprs self.now.regional self.now.roaming cell }
        ensures law { Decides result ((Has forbidden.now cell.plmn ⊎ (Has self.now.regional cell ⊎ Has self.now.roaming cell))
            ⊎ Has self.now.gprs cell.plmn) }
    {
        self.to_circuit(forbidden, cell) || self.gprs.contains(&cell.plmn)
    }
}
