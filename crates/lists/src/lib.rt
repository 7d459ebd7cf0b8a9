// The lists that network selection reads: the bars and the equivalent networks.
#![tactic(auto)]

mod bars;
mod equivalents;
mod recent;

pub use bars::Bars;
pub use equivalents::EquivalentPlmns;
pub use recent::Recent;
use vocabulary::{Lai, Plmn};

// At most four networks: those that are forbidden, or those that are forbidden for GPRS.
pub type PlmnBar = Recent<Plmn, 4>;

// At most ten location areas: those where regional service is not allowed, or those where roaming is not.
pub type AreaBar = Recent<Lai, 10>;

// The lists by name.
pub type ForbiddenPlmns = PlmnBar;

pub type GprsForbiddenPlmns = PlmnBar;

pub type RegionalAreas = AreaBar;

pub type RoamingAreas = AreaBar;
