//! The first form: the tokens of its texts.

mod front;
mod tokens;

pub use tokens::{first_tokens, one_token_list, token_bytes, tokens_cover_text};
