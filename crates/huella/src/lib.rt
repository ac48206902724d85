//! The field text of a record and its Huella, by the tax agency's hash specification for VERI*FACTU.
//!
//! - `laws`: what holds of every record
//! - `sealing`: the Huella of a record: its field text is fed to the hasher piece by piece, and never joined
//! - `stated`: what every record keeps, as the law of field texts asks for it
//! - `texts`: the field text, as a text
//!
//! `texts` joins a field text; `sealing` feeds it to the hasher and never joins it.
//!
//! Left to others: which record came before (`shop_core`).
#![tactic(auto)]

mod laws;
mod sealing;
mod stated;
mod texts;

pub use laws::text_determines_record;
pub use sealing::{huella_of, seal};
pub use stated::is_stated;
pub use texts::{field_text, field_text_of, huella_text};
