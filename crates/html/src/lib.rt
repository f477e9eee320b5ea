//! Pages of HTML: templates with places for values, and values that no browser reads as markup.
#![tactic(auto)]

mod templates;
mod values;

pub use templates::{Values, write_filled};
pub use values::write_value;
