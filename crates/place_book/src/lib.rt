// A book of places: the places of a plant, each with its parent, and where things are.
#![tactic(auto)]

mod answers;
mod climbs;
mod drafting;
mod facts;
mod places;
mod refusals;

pub use places::{Draft, Open, PlaceBook, Places, Sealed};
pub use refusals::Refusal;
