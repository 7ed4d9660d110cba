// Stations by number: what a roster is, the roster of tables, and the layer of couplings over any roster.
#![tactic(auto)]

mod coupled;
mod coupling;
mod facts;
mod joint;
mod mask;
mod moves;
mod pairs;
mod roster;

pub use coupled::Coupled;
pub use joint::{Obstacle, find_obstacle};
pub use roster::Roster;
