//! Plays by certificates, beside numbers counted from the rules of a trick, and dialogues.
#![tactic(auto)]

#[cfg(test)]
mod best_card_tests;
#[cfg(test)]
mod card_value_tests;
#[cfg(test)]
mod contracts;
#[cfg(test)]
mod dialogue_order_tests;
#[cfg(test)]
mod dialogue_tests;
#[cfg(test)]
mod dialogue_texts;
#[cfg(test)]
mod draws;
#[cfg(test)]
mod ending_tests;
#[cfg(test)]
mod expect;
#[cfg(test)]
mod finesse;
#[cfg(test)]
mod foreign;
#[cfg(test)]
mod foreign_tests;
#[cfg(test)]
mod full_tests;
#[cfg(test)]
mod lead_tests;
#[cfg(test)]
mod text_tests;
#[cfg(test)]
mod told;
#[cfg(test)]
mod worked_tests;
