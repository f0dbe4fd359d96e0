//! Which volumes a file may hold, by the magics of their blocks: a dump of a whole flash too, in which a volume begins anywhere.
#![tactic(auto)]

mod finding;
mod powers;
mod rests;
mod rows;
mod spot;
mod told;
mod volumes;
mod words;

pub use finding::{candidates_have_places, front_volumes_are_found, next_candidate, place_count};
pub use spot::byte_of;
pub use words::{UNIT, read_words, words_need};
