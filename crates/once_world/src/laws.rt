//! What holds of every shop and agency that agree, and of every world of theirs.
ghost use Rattle.once_world.specs.Laws as law;

use shop_core::{
    a_history_notes_its_records, a_legal_history_goes_on, a_sale_has_a_new_number,
    legal_is_chained, what_is_made_continues, what_is_made_is_a_record,
};

/// Where agreement begins, what keeps it, and that each record then stands once among the processed ones.
pub fn agreement_is_kept()
    ensures begun { law.NotedPairsAgree }
    ensures once { law.StandOnce }
    ensures records { law.RecordsKeepAgreement }
    ensures next_lines { law.RecordsKeepNextLines }
    ensures sending { law.SendingKeepsAgreement }
    ensures deliveries { law.DeliveriesKeepAgreement }
    ensures noting { law.NotingKeepsAgreement }
{
    legal_is_chained();
    a_sale_has_a_new_number();
    a_history_notes_its_records();
}

/// A batch that was sent adds no sale that the agency refuses because its register says otherwise.
pub fn no_sale_is_refused()
    //= A delivery of a batch that was sent adds no sale that is refused as held, not held or gone.
    //= No body: a law over definitions, which has no body
    ensures { law.DeliveriesRefuseNoSale }
{
    legal_is_chained();
    a_sale_has_a_new_number();
}

/// What an agency that agrees answers of the waiting records: a reply of new lines alone, and what stands in front of a
/// consultation, are its next lines, and a consultation has no hole.
pub fn answers_are_next()
    //= A reply of new lines alone gives the agency's next lines.
    //= No body: a law over definitions, which has no body
    ensures first { law.FirstLinesAreNext }
    //= The prefix of a consultation is the agency's next lines.
    //= No body: a law over definitions, which has no body
    ensures looked { law.LookedLinesAreNext }
    //= A consultation of what waits has no hole.
    //= No body: a law over definitions, which has no body
    ensures whole { law.WaitingHaveNoHole }
{
    legal_is_chained();
    a_sale_has_a_new_number();
}

/// What came only adds to the agency's list. Each record of a batch that came is seen from then on, with one and the same
/// line.
pub fn what_came_is_seen()
    ensures grows { law.DeliveriesOnlyAdd }
    ensures delivered { law.DeliveredAreSeen }
    //= What came to the agency is seen, and stays seen.
    //= No body: a law over definitions, which has no body
    ensures stays { law.SeenStays }
{}

/// What came to a shop that gained no notes but its outbox's own: records, apart from what the outbox added.
pub fn what_came_beside_is_records()
    ensures quiet { law.CameQuietly }
    ensures own { law.CameBesideOwn }
{}

/// The world of every issuer, plan and list of events is sound: its history is legal, it agrees with its agency, what is
/// learnt are the agency's next lines, each record is processed once, and no sale is refused because the register says
/// otherwise.
pub fn every_world_is_sound()
    //= All this holds of every issuer, every plan and every list of events whose asks are in range.
    //= No body: a law over definitions, which has no body
    ensures { law.EveryWorldIsSound }
{
    legal_is_chained();
    a_sale_has_a_new_number();
    what_is_made_is_a_record();
    a_legal_history_goes_on();
    what_is_made_continues();
}
