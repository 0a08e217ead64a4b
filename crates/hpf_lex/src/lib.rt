//! The tokens of a mapping text. A text is cut into lines; a directive line begins with `!HPF$`, a pipeline line with
//! `!PIPE$`, and any other line is Fortran in free source form. Each line is a statement or continues the one before it,
//! which ends with `&`. [`tokens`] gives the tokens of all statements with their places, or refuses the text with its
//! first fault.
#![tactic(auto)]

mod bytes;
mod laws;
mod lexeme;
mod line;
mod place;
mod refusal;
mod scan;
mod token;
mod word;
mod word_order;

pub use laws::{
    cut_into_tokens, first_fault, longest_token, numeral, one_line_each, one_reading,
    order_of_refusals, proper_tokens, spelled_token,
};
pub use refusal::{Fault, MapError, MapRefusal};
pub use scan::{MAX_TEXT, tokens};
pub use token::{Token, TokenKind, Tokens};
pub use word::Word;
