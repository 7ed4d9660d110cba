// The text of a table.
#![tactic(auto)]

mod lines;
mod parts;
mod text;

pub use text::{refused_text, row_text, show_table};
