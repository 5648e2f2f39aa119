// The names of zones from their roots, and the list of the names, in lent work memory: `names` finds each component's
// lowest zone, and `tops` lists these zones.
#![tactic(auto)]

mod names;
mod tops;

pub use names::name_zones;
pub use tops::list_names;
