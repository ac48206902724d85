//! What holds of every list of messages, and of every answer to a batch.
ghost use Rattle.agency_port.specs.Laws as law;

use agency_rules::{deliveries_join, only_what_came_comes_again};

/// A session is what stands after the last `begin`, and each other message goes on with it.
pub fn a_session_follows_its_begin()
    ensures begins { law.SessionFollowsItsBegin }
    ensures goes_on { law.SessionGoesOn }
    //= A session is what stands after the last `begin`.
    //= No body: a law over definitions, which has no body
    ensures last { law.SessionStandsLast }
{}

/// The messages tell which records may be handed over: those that never were, and those for which a consultation since the
/// last submission that named them has answered `NotSeen`.
pub fn a_record_may_go_unless_dark()
    //= A record may be handed over where it never was, or where a consultation since the last submission that named
    //= it answered that it wasn't seen; the messages tell which.
    //= No body: a law over definitions, which has no body
    ensures { law.MayGoUnlessDark }
{}

/// The reply that is kept is the last one that named its batch, until a consultation answers.
pub fn the_last_named_reply_is_kept()
    //= The reply that is kept is the last one that named its batch, until a consultation answers.
    //= No body: a law over definitions, which has no body
    ensures is { law.KeptIsTheLastNamed }
    ensures more { law.KeptByOneMore }
{}

/// A record is answered `Duplicado` exactly where its Huella came before.
pub fn only_what_came_is_duplicado()
    ensures join { law.AnswersJoin }
    //= A record is answered `Duplicado` exactly where its Huella stood in the list or earlier in the batch.
    //= No body: a law over definitions, which has no body
    ensures duplicado { law.DuplicadoWhereItCame }
    ensures first { law.AllFirstWhereNoneCame }
{
    deliveries_join();
    only_what_came_comes_again();
}
