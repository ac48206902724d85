//! The script: bytes, cut into lines, that say what a run of the shop is to do.
//!
//! - `customers`: the customers of the lines above, by their keys
//! - `cuts`: texts that are cut at a byte
//! - `drafts`: the draft of an invoice, from the fields past its kind
//! - `faults`: why a line, or a part of it, says nothing
//! - `fields`: the fields of a line, one after another
//! - `forms`: what may stand in a script
//! - `hearing`: lines that are said one by one
//! - `keys`: keys of customers
//! - `limits`: the limits of a script
//! - `lines`: what a line of a script says
//! - `numbered`: the lines that commands stand in
//! - `numbers`: numbers as a script writes them: decimal digits without leading zeros
//! - `options`: the options and the lines of an invoice, field by field
//! - `planned`: what the lines plan for the practice agency
//! - `planning`: what the lines of the forms say that plan what the practice agency does
//! - `readings`: the fields of a line as they are read, each with its own word
//! - `requests`: the requests of `sale`, `fix` and `cancel`, past their tills and serials
//! - `saying`: what a line of a script says, below those that were read
//! - `scripts`: Scripts: what their lines say, or the first bad line
//!
//! `Script` is the headline, `Lines` the grammar of a line after those above it, `Options` and `Gathered` that of
//! options and lines; `SoFar` and `Tables` are what the reader keeps, `Planned` what a plan keeps, `Numbered` which
//! lines the asks stand in; `Heard` is a reader of lines that are said one by one, `Forms` what may stand in which
//! form.
//!
//! Left to others: what a command is answered (`shop_core`), and the answers to lines of `serve` (`dialogue`).
#![tactic(auto)]

mod customers;
mod cuts;
mod drafts;
mod faults;
mod fields;
mod forms;
mod hearing;
mod keys;
mod limits;
mod lines;
mod numbered;
mod numbers;
mod options;
mod planned;
mod planning;
mod readings;
mod requests;
mod saying;
mod scripts;

pub use cuts::{Cuts, without_return};
pub use faults::Fault;
pub use fields::Fields;
pub use forms::Form;
pub use hearing::Heard;
pub use keys::Key;
pub use limits::{
    MAX_CALL, MAX_CODE, MAX_COMMANDS, MAX_CUSTOMERS, MAX_LATE, MAX_NTH, MAX_SCRIPT, MAX_START,
    MAX_STEP, MAX_WAIT,
};
pub use lines::Meaning;
pub use numbered::LineNumbers;
pub use readings::{cents, class, num, number};
pub use scripts::{Asks, Script, ScriptFault, read_numbered, read_script};
