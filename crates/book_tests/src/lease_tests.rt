//! The lease book, by its calls and by whole lists of requests.

pub mod books;
pub mod certificates;
pub mod long_list;
pub mod slow_book;
pub mod twins;
