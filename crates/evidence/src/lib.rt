//! Evidence that is kept: what was found of a deal in one denomination, as data and as text.
//!
//! A [`Section`] has a layout, a denomination, claims for declarers, and the graphs of both sides that are to show
//! them. Each has one text (docs/FORMATS.md), which [`write_section`] writes and [`read_section`] reads back; every
//! other text is of no section. [`Sections`] reads a whole text from a source, piece by piece, whatever its bytes are.
//! Whether the graphs show what is claimed is not asked here.
#![tactic(auto)]

mod claims;
mod damages;
mod graphs_reading;
mod head_reading;
mod parts;
mod section_reading;
mod section_writing;
mod sections;
mod vec_sinks;
mod wholes;
mod words;

pub use claims::claims_in_order;
pub use damages::Damage;
pub use graphs_reading::read_graphs;
pub use parts::{Part, Piece};
pub use section_reading::read_section;
pub use section_writing::{
    bundle_bytes, section_bytes, write_count, write_counted, write_graphs, write_seat,
    write_section, write_trump,
};
pub use sections::{Section, is_graph_of};
pub use vec_sinks::VecSink;
pub use wholes::Sections;
pub use words::{cut_at, seat_of, tricks_of, trump_of};
