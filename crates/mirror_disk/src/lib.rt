//! Two disks that hold the same, as one disk. Each write and each sync goes to the first half and then to the second.
//! Once one of them failed the mirror is broken for good: it is read from its first half, and written no more.
//! Whichever half survives a loss, it is one of the images that a crash may leave of the mirror.
//!
//! - `halves`: what a call of a mirror does to its halves
//! - `mirror`: the mirror
//! - `standing`: how a mirror stands
//!
//! `specs/Mirror.antt` says what a mirror tells, `Halves` the law on its halves, `Calls` what each call does to them. A
//! mirror's moments are counted from when it was made (`since`), since its halves have pasts of their own. `Survivors`
//! takes what is proved of crashes of the mirror, whatever it is, to either half; call the law,
//! `each_half_is_an_image`, on the mirror first.
//!
//! Left to others: how two files come to hold the same (`second_disk`).
#![tactic(auto)]

mod halves;
mod mirror;
mod standing;

pub use mirror::MirrorDisk;
pub use standing::Standing;
