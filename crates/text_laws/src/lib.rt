//! Laws of PBN texts. Nothing that runs rests on this crate.
#![tactic(auto)]

mod conditions;
mod table_texts;
mod texts;
mod written;

pub use conditions::{
    boards_have_conditions, boards_have_titles, conditions_are_unique, pages_keep_conditions,
    titles_are_unique,
};
pub use table_texts::{
    boards_are_read_back, pages_say_one_thing, said_boards_are_read_back, table_texts_are_read,
};
pub use texts::{
    boards_are_of_lines, layouts_are_read_back, one_answer, one_layout, some_answer, some_layout,
    texts_are_lines, texts_are_read_in_turn,
};
pub use written::{
    boards_are_kept, ends_are_given, nothing_is_lost, one_is_written, tables_are_shown_once,
    tables_stay,
};
