//! Words that people know from other tools, and what each of their lines means in the words of the top call. A line that begins with a
//! command of the top call is meant as itself; every other line means one command of it, or is refused for a stated reason.
#![tactic(auto)]

mod amount;
mod asked;
mod giving;
mod laws;
mod line;
mod naming;
mod option;
mod script;
mod settling;
mod telling;
mod token;
mod word;

pub use amount::read_amount;
pub use asked::{Asked, Refusal, read_line};
pub use giving::{Given, first_given, given_for, place};
pub use laws::{
    a_changed_volume_is_one, a_written_volume_is_safe, an_option_twice_is_refused,
    given_numbers_are_kept, known_numbers_ask_for_no_look, options_stand_in_any_order,
    volumes_are_in_reach, working_names_are_others,
};
pub use line::{push_word, top_words};
pub use naming::{folder_word, image_word};
pub use option::Slot;
pub use script::{
    ANEW, ON, PIECE, SCRATCH, can_be_put, close_line, info_line, make_working, open_line,
    remove_line, rename_line, write_line,
};
pub use settling::{
    Candidate, Unsettled, Volume, choose_sure, is_doubled, known_block, known_meta, known_page,
    settle, wants_detect,
};
pub use word::{Preset, Word, is_own};
