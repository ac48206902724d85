//! What holds of every delivery.
ghost use Rattle.agency_rules.specs.Laws as law;

/// To deliver two batches in one is to deliver them one after the other, and so are the answers.
pub fn deliveries_join()
    //= Two batches in one are delivered as one after the other.
    //= No body: a law over definitions, which has no body
    ensures lists { law.DeliveriesJoin }
    ensures answers { law.MeetingsJoin }
{}

/// A record comes again exactly where its Huella stood in the list or earlier in the batch. Where none stands there and all
/// differ, each record is new.
pub fn only_what_came_comes_again()
    //= A record comes again exactly where its Huella stood in the list or earlier in the batch.
    //= No body: a law over definitions, which has no body
    ensures again { law.AgainWhereItCame }
    ensures new { law.AllNewWhereNoneCame }
{}
