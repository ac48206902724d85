//! What a till may ask besides its commands: a question is a line, and so is its answer, which is that of a history.
//! Nothing is added, and no answer walks the history.
//!
//! - `answers`: what a question is answered at a history
//! - `faults`: what is wrong in a question's line
//! - `questions`: what a till asks
//! - `reading`: a line that is read as a question
//!
//! `Reading` says which lines are questions and what is wrong in one, `Answers` what each is answered at a history.
//!
//! Left to others: the texts (`report`), and when a question is asked (`dialogue_loop`).
#![tactic(auto)]

mod answers;
mod faults;
mod questions;
mod reading;

pub use answers::lines_answer;
pub use faults::QuestionFault;
pub use questions::TillQuestion;
pub use reading::question_of;
