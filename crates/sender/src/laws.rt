//! What holds of every sender's turns.
ghost use Rattle.sender.specs.Known.{Known};
ghost use Rattle.sender.specs.Agreeing.{GoesLit, BeginsCareful, AgreedAreRuns, BeginsInSession, BeginsWithoutReply};
ghost use Rattle.sender.specs.Draining.{KeepsTime};

use agency_port::a_record_may_go_unless_dark;
use once_world::{
    agreement_is_kept, answers_are_next, what_came_beside_is_records, what_came_is_seen,
};

/// What is known of every shop and agency that agree.
pub(crate) fn what_is_known()
    ensures { Known }
{
    agreement_is_kept();
    answers_are_next();
    what_came_is_seen();
    what_came_beside_is_records();
}

/// What is never in the dark, in the words of the messages: each record that is handed over was never handed over before, or
/// a consultation since its last submission has answered that it wasn't seen.
pub fn nothing_goes_blindly()
    //= In the words of the messages: a record is handed over again only where a consultation since answered `NotSeen`
    //= for it.
    //= No body: a law over definitions, which has no body
    ensures { GoesLit }
{
    a_record_may_go_unless_dark();
}

/// Where a session begins. A new sender is in session where shop and agency agree. It has handed nothing over in the dark where
/// each batch before is a run of the records that ends at most `MAX_BATCH` past the noted ones, as it is where they agree.
pub fn a_session_begins()
    ensures session { BeginsInSession }
    ensures reply { BeginsWithoutReply }
    ensures careful { BeginsCareful }
    ensures runs { AgreedAreRuns }
{}

/// Over a sleeper that tells its moment, each turn of a drain is made at the moment at its start, or at the greatest second
/// of an earlier `WaitUntil` where that is greater.
pub fn a_drain_keeps_time()
    //= Over a sleeper that tells its moment each turn has that moment, or the greatest second of an earlier
    //= `WaitUntil`.
    //= No body: a law over definitions, which has no body
    ensures { KeepsTime }
{}
