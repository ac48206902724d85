//! The tax agency as its sender sees it: what is handed to it, what it answers, and two forms of it in memory. `Agency`
//! says what every agency does, and more where agencies of a type tell their lists or keep the rules. A batch whose
//! answer was lost may have come, may come later, or never: only a consultation tells. The laws say what the list of
//! messages tells of its session, of the records that may be handed over, and of the last reply.
//!
//! - `agency`: the trait of an agency
//! - `answers`: what the agency answers for each record
//! - `delivering`: what comes to an agency, and what it answers
//! - `fates`: what a fate makes of a call
//! - `laws`: what holds of every list of messages, and of every answer to a batch
//! - `messages`: what was said to an agency, and what it answered
//! - `practice`: the agency that a shop practises with
//! - `reply`: the reply to a submission
//! - `telling`: the answers that an agency was told, as they fit
//! - `told`: an agency that was told its answers
//! - `turns`: what is told of the sender's turns
//!
//! Whether agencies tell, and keep the rules, is a matter of their type; what a type of agency says beyond every agency
//! stands in its ghost members `opening`, `submission`, `consultation`. The practice agency's batches, calls and last
//! reply are read off its one log.
//!
//! Left to others: how a record is judged (`agency_rules`), what a batch is (`batches`), and when it is sent
//! (`sender`).
#![tactic(auto)]

mod agency;
mod answers;
mod delivering;
mod fates;
mod laws;
mod messages;
mod practice;
mod reply;
mod telling;
mod told;
mod turns;

pub use agency::{Agency, MAX_CONSULTED};
pub use answers::{AgencyFault, ReplyLine, ReplyLines, Seen, SeenList, State3};
pub use laws::{
    a_record_may_go_unless_dark, a_session_follows_its_begin, only_what_came_is_duplicado,
    the_last_named_reply_is_kept,
};
pub use messages::{Logged, Message};
pub use practice::PracticeAgency;
pub use reply::Reply;
pub use told::{ToldAgency, ToldAnswer, ToldAnswers};
pub use turns::{Evidence, Told, Turns};
