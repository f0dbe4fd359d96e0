//! Calls of a volume one after the other, as tools make them that write volumes: where a volume stands at a state of the flat
//! table with room, each call is answered as the table is, and the volume stands at the state after it.
#![tactic(auto)]

mod asking;
pub mod resting;

pub use asking::{Stop, ask, open, stop_of};
pub use resting::call_at_rest;
