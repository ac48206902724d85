//! The agency at the end of two streams: typed messages as lines of JSON, an answer a line. A message is written only
//! once the begin of its call was answered. What each line is read as is a relation over serde_json's values; nothing
//! is assumed of who writes them.
//!
//! - `answer_reader`: reads the answer to a message
//! - `answers`: what the line of an answer is read as
//! - `ends`: the ends of a pipe: a source and a sink over FIFOs
//! - `exchange`: begins a call, writes its message and reads its answer
//! - `faults`: why a line is no answer
//! - `fifo`: FIFOs by their paths
//! - `greet`: begins a call: nothing of its message is written before the other side has answered the begin
//! - `items`: the items of an answer
//! - `laws`: what goes to another thread
//! - `log`: a history that contracts alone read
//! - `message_log`: what was said, for contracts alone: it takes no memory
//! - `messages`: the texts of messages
//! - `patient`: an agency that isn't hurried: before a call that follows failed ones it waits
//! - `pipe`: the agency that a source and a sink lead to
//! - `reader`: reads the line of an answer, a byte at a time: the source keeps what it read ahead
//! - `reasons`: why a message has no answer, in words
//! - `standing`: what a line is to the message that waits for its answer
//! - `words`: what the words of an answer say
//! - `write`: writes a message
//!
//! Left to others: the service itself with its XML and certificates, which are an adapter's; when a call is made, and
//! with what (`sender`).
#![tactic(auto)]

mod answer_reader;
mod answers;
mod ends;
mod exchange;
mod faults;
mod fifo;
mod greet;
mod items;
mod laws;
mod log;
mod message_log;
mod messages;
mod patient;
mod pipe;
mod reader;
mod reasons;
mod standing;
mod words;
mod write;

pub use answer_reader::{Deaf, MOST_EARLIER};
pub use answers::{read_reply, read_seen};
pub use ends::{PipeSink, PipeSource};
pub use exchange::Quiet;
pub use faults::Unheard;
pub use fifo::{Unfit, unfit_files};
pub use laws::{may_cross_threads, patient_may_cross_threads};
pub use messages::{PROTOCOL, begin_line, consult_line, opening_of, submit_line};
pub use patient::Patient;
pub use pipe::PipeAgency;
pub use reader::MAX_ANSWER;
