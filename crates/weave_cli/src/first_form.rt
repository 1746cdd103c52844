//! The first form: weaving of its programs, and the text of what comes of it.

mod layout;
mod source;
mod weaving;

pub use source::woven_text;
