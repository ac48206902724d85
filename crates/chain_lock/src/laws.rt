//! What holds of passes alone.
ghost use Rattle.chain_lock.specs.Laws.{SeesAll};

use crate::act::Recorded;

/// Where each pass owns nothing after what was seen, that is the whole list.
pub fn who_sees_all_that_is_owned_sees_all<V: Recorded>()
    ensures { SeesAll V.items V.root }
{}
