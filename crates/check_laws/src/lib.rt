//! Laws of certificates: of their texts, of patterns and their cards, and of the checker's steps and faults. Nothing
//! that runs rests on this crate.
#![tactic(auto)]

mod graph_texts;
mod pattern_cards;
mod steps;
mod words;

pub use graph_texts::{graphs_are_read_back, one_answer, one_graph, one_text};
pub use pattern_cards::{
    covered_hands_are_as_large, each_card_is_one, each_hand_has_one_less, each_pat_card_is_some,
    hands_are_as_large, lengths_are_held, one_is_left, stands_for_its_suit, tops_rank_above,
    what_is_left_matches,
};
pub use steps::{
    begun_node_has_one_first_fault, extracts_hold, graph_has_one_first_fault, lines_lead_to_places,
    no_fault_where_begun_is_right, no_fault_where_steps_hold, place_has_one_first_fault,
    places_are_on_lines, steps_hold_as_version_two, texts_have_one_verdict,
};
pub use words::{
    equal_words_are_one_pattern, equal_words_are_one_rest, words_make_their_pattern,
    words_make_their_rest,
};
