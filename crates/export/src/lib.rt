//! A history as lines of JSON: one for the file's issuer and version, and one for each entry. Each is written, and read
//! back. What a line says is the value that serde_json reads of it: blanks, the order of the keys and escapes in texts
//! make no difference, and of a key that stands twice the last value counts. The objects are this project's own.
//!
//! - `elements`: the elements of lists, each a pair in JSON
//! - `faults`: why a line isn't taken
//! - `fields`: what the fields of an object say
//! - `heads`: what the first line of a file says
//! - `laws`: what holds of all objects
//! - `line_words`: the words of the agency's lines, with their codes
//! - `lines`: lines of JSON
//! - `objects`: the objects of a history
//! - `pairs`: Pairs: what an invoice refers to, its lines, and the agency's lines
//! - `records`: the entry whose object a value is, if it is one
//! - `values`: the values of fields
//!
//! Left to others: the reading of the file and the printing (`file_commands`).
#![tactic(auto)]

mod elements;
mod faults;
mod fields;
mod heads;
mod laws;
mod line_words;
mod lines;
mod objects;
mod pairs;
mod records;
mod values;

pub use faults::LineFault;
pub use heads::Head;
pub use laws::objects_are_apart;
pub use line_words::{line_code, line_named, line_word};
pub use lines::{
    entry_text, head_text, is_entry_line, is_head_line, read_entry, read_head, value_of,
};
pub use objects::sealed_members;
pub use values::{day_value, huella_value, nif_value, num_value, text_value};
