//! Sets of vregs by number, arrays of such numbers that share chunks, and where vregs may be.
#![tactic(auto)]

pub mod entries;
pub mod homes;
mod kept_set;
mod known;
mod more_places;
mod notes;
pub mod passed_sets;
pub mod place_positions;
mod positions;
pub mod sets;
pub mod unused_sets;
mod versions;

pub use positions::Positions;
