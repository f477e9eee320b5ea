//! The desk, by its calls from one thread and from many.

pub mod asking;
mod drawn_requests;
mod gated_check;
mod hand_ins;
mod many_threads;
mod plain_book;
mod shifts;
mod terms;
mod worked_list;
