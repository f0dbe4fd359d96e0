//! What a flash image means: its live pages, files, table and damage.
#![tactic(auto)]

mod damage;

pub use damage::Damage;
