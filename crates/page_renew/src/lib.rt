//! The copies of pages that take the place of others: built in the bytes for work, before they are put.
#![tactic(auto)]

mod building;
mod copying;
mod edits;
mod finding;
mod laws;
mod naming;
mod renewing;
mod restating;

pub use building::{build_copy, build_data, build_renamed, name_page};
pub use copying::{erase_part, see_bytes};
pub use edits::{Edit, build_edited};
pub use finding::{Found, find_home, seek_index};
pub use laws::edits_lead;
pub use naming::name_data;
pub use renewing::{put_over, renew_at, renew_from, renew_header};
pub use restating::restate;
