//! The tokens of a line of the design text, and the numbers that they spell.
#![tactic(auto)]

mod laws;
mod lexer;
mod numbers;
mod stop;
mod token;
mod tree;

pub use laws::{numbers_are_read, tokens_of_a_line};
pub use lexer::tokens;
pub use numbers::{atom, is_among, is_name, number};
pub use stop::Stop;
pub use token::{Mark, Token};
pub use tree::{Num, NumOp};
