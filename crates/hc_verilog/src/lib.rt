//! Verilog: the text of a module.
#![tactic(auto)]

mod declarations;
mod form_text;
mod header;
mod instances;
mod items;
mod laws;
mod memories;
mod tables;
mod text;
mod text_laws;

pub use form_text::module_text;
pub use laws::{module_texts_are_single, tree_texts_are_single};
pub use text_laws::modules_have_texts;
