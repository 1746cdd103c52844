//! Tokens of C, of annotations and of Ya. The tokens of the first form stand in a folder of their own.
#![tactic(auto)]

pub mod bytes;
mod comment;
pub mod constant;
mod fault;
mod first_form;
mod lexeme;
pub mod lexing;
mod number;
mod piece;
pub mod position;
pub mod profile;
mod run;
mod token;

pub use fault::LexFault;
pub use first_form::{first_tokens, one_token_list, token_bytes, tokens_cover_text};
pub use lexing::{lex, lex_annotation, lex_spec};
pub use token::{ConstantType, IntSuffix, IntegerConstant, Place, Refusal, Token, TokenKind};
