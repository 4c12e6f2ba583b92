//! The value of a written number, under bindings of names.
#![tactic(auto)]

mod arithmetic;
mod bindings;
mod values;

pub use bindings::Env;
pub use values::eval;
