//! The day of a shop with many tills: each till asks in a thread of its own, for its own commands in order, and a
//! sender sends at the same time; once the tills have ended it drains, and the shop is closed.
//!
//! - `running`: the day of a shop: its tills, and a sender at the same time
//! - `tills`: the tills of a day: their room, and the work that each does in a thread of its own
//!
//! Left to others: opening and closing (`shop_drain`), the script and the printing (`shop_commands`).
#![tactic(auto)]

mod running;
mod tills;

pub use running::{DayDone, run_day};
pub use tills::{TillDay, TillJob, TillRoom, room_for};
