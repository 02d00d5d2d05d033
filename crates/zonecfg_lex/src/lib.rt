//! Lines of the configuration language of zonecfg(8): their tokens, the parts that semicolons make of
//! them, and the values that tokens are. Each answer is exactly the one that a definition of the whole
//! line gives, and each fault the first from the left, with its place.
#![tactic(auto)]

mod bytes;
mod fault;
mod grammar;
mod laws;
mod lexer;
mod scope;
mod spans;
mod subcommands;
mod token;

pub use fault::LexFault;
pub use grammar::{given_text, pairs, value};
pub use laws::values_fit;
pub use lexer::{part_tokens, tokens};
pub use spans::parts;
pub use subcommands::{Part, line_tokens};
pub use token::{Span, Token, TokenKind};
