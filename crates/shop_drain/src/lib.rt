//! An opened shop without tills: the file of a post is opened for its issuer, the agency's session is begun, and the
//! records that wait are sent until none is left, with or without a copy of the file. What each call leaves is given
//! back. A day (`shop_day`) and a dialogue (`shop_dialogue`) begin with the same opening and the same session.
//!
//! - `draining`: sends an opened file's waiting records until none is left
//! - `guarding`: sends an opened file's waiting records until none is left, and notes each line in a copy too
//! - `kinds`: what all disks and all agencies of a kind have
//! - `opening`: from a post to an opened file, on to a shop that has begun over it, and back
//! - `posts`: what a command works on: a file and what goes with it
//!
//! `posts` is a file and what goes with it, `opening` takes a post to an opened shop that has begun, and back;
//! `draining` and `guarding` drain it; `kinds` has two laws on the types of disks and agencies. Specs: `Devices` is
//! what a call was given and gives back, `Crashes` what a crash leaves since the opening, `Opening` what opening
//! leaves; `Draining` and `Guarding` say a drain of a file, and of a file and its copy. A drain of a shop without tills
//! and one of a pair have one proof (`proofs/NewSender`): a pair is seen as a closed shop whose sender owns all that
//! came (`proofs/Paired`).
//!
//! Left to others: tills (`shop_day`, `shop_dialogue`), the script and the printing (`shop_commands`).
#![tactic(auto)]

mod draining;
mod guarding;
mod kinds;
mod opening;
mod posts;

pub use draining::{DrainEnd, drain_opened};
pub use guarding::{GuardEnd, guard_opened};
pub use kinds::{what_a_disk_reads_is_an_image, who_keeps_the_rules_tells};
pub use opening::{Begun, Opened, Unopened, begin, begin_session, close, open, opening_end};
pub use posts::{Post, Posts};
