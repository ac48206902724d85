//! What tills say line by line, and what each line is answered.
//!
//! - `speaker`: one line that was said
//! - `texts`: the texts of answers
//!
//! `Protocol` is the definition, one constructor for a line, over the transcript of the lines before it; `Continues`
//! says what a line makes of each dialogue that has come so far; `OneLine` is what the code finds. The loop over a
//! source and a shop is `dialogue_loop`'s.
#![tactic(auto)]

mod speaker;
mod texts;

pub use speaker::{Action, Speaker};
pub use texts::command_text;
