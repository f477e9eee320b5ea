//! Boards of a PBN text, and layouts of a Deal value, read and written as PBN 2.1 says. Where the standard leaves room,
//! docs/FORMATS.md decides.
#![tactic(auto)]

mod boards;
mod deal_texts;
mod deal_values;
mod dealings;
mod faults;
mod games;
mod hands;
mod laws;
mod letters;
mod line_cuts;
mod line_reader;
mod line_starts;
mod pieces;
mod readers;
mod tags;

pub use boards::{Board, BoardName};
pub use deal_texts::write_layout;
pub use deal_values::{read_dealing, read_layout};
pub use dealings::Dealing;
pub use faults::PbnFault;
pub use games::MOST_BOARDS;
pub use laws::boards_are_printable;
pub use line_cuts::without_mark;
pub use line_starts::{LineStart, line_start};
pub use pieces::{Piece, Row, first_piece, first_row, front_of};
pub use readers::read_boards;
pub use tags::is_same_name;
