//! The lines of a scenario's text, their words, and the fields that words spell.
//!
//! Proved: the lines, words and fields of a text are as defined.
#![tactic(auto)]

mod cutting;
mod equality;
mod lanes;
mod line_fields;
mod line_tokens;
mod misplaced;
mod naming;
mod numbers;
mod utf8;
mod words;

pub use cutting::{TextLine, next_line, next_text_line, worded_part};
pub use equality::is_same;
pub use line_fields::{
    Field, ended, take_declared, take_keyword, take_last_declared, take_last_new_name,
    take_last_number_below, take_last_number_within, take_new_name, take_number,
    take_number_within,
};
pub use line_tokens::{Token, Tokens, number_in, read_tokens};
pub use misplaced::refusal_of;
pub use naming::{Named, Names};
pub use utf8::is_text;
pub use words::{is_word, next_word};
