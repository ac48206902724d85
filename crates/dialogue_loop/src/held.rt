//! All tills of a shop, held by one thread, the last one first.
ghost use Rattle.std.specs.Prelude.{◌≡◌, ◌<◌, ◌≤◌, ◌++◌, ◌∷◌, [], ℕ, List, Option, length, map, reverse, All, IfOk, vec_capacity, vec_len};
ghost use Rattle.std.specs.List.{range_with_len};
ghost use Rattle.chain_lock.specs.Known.{Known};
ghost use Rattle.chain_store.specs.Readings.{readings};
ghost use Rattle.chain_store.specs.Replies.{Replies};
ghost use Rattle.ports.specs.Readings.{MovedBy};
ghost use Rattle.record_codec.specs.declared.entry.TheConstants.{LAST_TILL};
ghost use Rattle.shop_core.specs.Answer.Requests.{Asked};
ghost use Rattle.shop_core.specs.declared.items.Item.{Item};
ghost use Rattle.till_calls.specs.Root.{Root};
ghost use Rattle.till_calls.specs.declared.clockless.Clockless.{Clockless as NoClock};
ghost use Rattle.till_calls.specs.Shop.{made_tills, numbers, seat_knows, seat_shop, shop_id, till_knows, till_number, till_shop};
ghost use Rattle.till_calls.specs.Shop.{tills_know, tills_shop};
ghost use Rattle.dialogue.specs.Protocol.{Look};
ghost use Rattle.dialogue_loop.specs.InARow.{AllRanOn, IsOfTill};
ghost use Rattle.dialogue_loop.specs.Looked.{Informed, LookedFor, LookedOn};
ghost use Rattle.dialogue_loop.specs.Speech.{KeepsRuns};

use crate::speaking::SpeechMeans;
use chain_disk::Disk;
use journal::StoreFault;
use ports::{Clock, Gate, NoMemory};
use questions::TillQuestion;
use record_codec::LAST_TILL;
use record_fields::Text;
use shop_core::{Ask, Reply};
use std::alloc::Global;
use std::sync::Wait;
use till_calls::{
    Clockless, SenderSeat, Shop, Till, Tills, a_list_fits_what_was_known_before,
    an_ask_goes_on_from_what_was_known_before, who_sees_on_twice_sees_on,
};

/// Where the first till stands.
const FIRST: usize = LAST_TILL as usize - 1;

/// The numbers of all tills, in order.
pub fn all_numbers(alloc: Global) -> Result<Vec<u8>, NoMemory>
    ensures { IfOk result (λ list. list.items ≡ range_with_len 1 LAST_TILL) }
{
    let mut list = Vec::with_capacity(alloc, usize::from(LAST_TILL))?;
    for before in 0..LAST_TILL {
        list.push_reserved(before + 1);
    }
    Ok(list)
}

/// Takes all tills out.
pub fn hold_all<D: Disk, C: Clock>(tills: &mut Tills<D, C>, held: &mut Vec<Till<D, C>>)
    requires room { (held.old.items ≡ []) × (length (numbers tills.old) ≤ vec_capacity held.old) }
    ensures numbers { reverse (map till_number held.new.items) ≡ numbers tills.old }
    ensures knows { reverse (map till_knows held.new.items) ≡ tills_know tills.old }
    ensures out { (numbers tills.new ≡ []) × (tills_know tills.new ≡ []) }
    ensures same { (tills_shop tills.new ≡ tills_shop tills.old) × (made_tills tills.new ≡ made_tills tills.old) }
    ensures own { All (λ t. till_shop t ≡ tills_shop tills.old) held.new.items }
{
    while let Some(till) = tills.pull() {
        held.push_reserved(till);
    }
}

// The till at a place tells the first one of how many items it knows.
fn inform_first<D: Disk, C: Clock>(shop: &Shop<D, C>, held: &mut Vec<Till<D, C>>, place: usize)
    requires own { All (λ t. till_shop t ≡ shop_id shop.now) held.old.items }
    requires size { vec_len held.old ≡ LAST_TILL }
    requires within { place < LAST_TILL }
    ensures own { All (λ t. till_shop t ≡ shop_id shop.now) held.new.items }
    ensures numbers { map till_number held.new.items ≡ map till_number held.old.items }
    ensures informed { Informed (map till_knows held.old.items) place 63 (map till_knows held.new.items) }
{
    if place < FIRST {
        let (others, first) = held.split_at_mut(FIRST);
        shop.inform(&mut others[place], &mut first[0]);
    }
}

// The first till tells the one at a place of how many items it knows.
fn inform_till<D: Disk, C: Clock>(shop: &Shop<D, C>, held: &mut Vec<Till<D, C>>, place: usize)
    requires own { All (λ t. till_shop t ≡ shop_id shop.now) held.old.items }
    requires size { vec_len held.old ≡ LAST_TILL }
    requires within { place < LAST_TILL }
    ensures own { All (λ t. till_shop t ≡ shop_id shop.now) held.new.items }
    ensures numbers { map till_number held.new.items ≡ map till_number held.old.items }
    ensures informed { Informed (map till_knows held.old.items) 63 place (map till_knows held.new.items) }
{
    if place < FIRST {
        let (others, first) = held.split_at_mut(FIRST);
        shop.inform(&mut first[0], &mut others[place]);
    }
}

/// Asks for one more, at the till of its number, and at the next reading of the clock. The first till, which knows of all that was
/// answered, tells it of how many items that are, and is told in turn, so each ask is at a history that has what was answered before
/// it.
pub fn ask_held<D: Disk, C: Clock, T: Gate, R: Wait>(
    means: SpeechMeans<'_, R, T>,
    shop: &Shop<D, Clockless>,
    held: &mut Vec<Till<D, Clockless>>,
    clock: &mut C,
    ask: &Ask,
) -> Result<Reply, StoreFault>
    requires own { All (λ t. till_shop t ≡ shop_id shop.now) held.old.items }
    requires numbers { reverse (map till_number held.old.items) ≡ range_with_len 1 LAST_TILL }
    ensures own { All (λ t. till_shop t ≡ shop_id shop.now) held.new.items }
    ensures numbers { map till_number held.new.items ≡ map till_number held.old.items }
    ensures of_till { IsOfTill ask.now }
    ensures moved { MovedBy 1 (C.coming clock.old) (C.coming clock.new) }
    ensures asks { (coming : ℕ → Option ℕ) (asks : List Asked) (replies : Replies) (before : List (Known Item (Root NoClock))) →
        length replies ≡ length asks → length before ≡ LAST_TILL → MovedBy (readings replies) coming (C.coming clock.old) →
        AllRanOn (λ c. coming) asks replies before (map till_knows held.old.items) →
        AllRanOn (λ c. coming) (asks ++ ask.now ∷ []) (replies ++ result ∷ []) before (map till_knows held.new.items) }
    ensures looked { (coming : ℕ → Option ℕ) (olds : List (Known Item (Root NoClock))) (asks : List Asked) (replies : Replies)
        (looks : List Look) → length replies ≡ length asks → MovedBy (readings replies) coming (C.coming clock.old) →
        LookedOn (λ c. coming) olds asks replies looks (map till_knows held.old.items) →
        LookedOn (λ c. coming) olds (asks ++ ask.now ∷ []) (replies ++ result ∷ []) looks (map till_knows held.new.items) }
{
    an_ask_goes_on_from_what_was_known_before::<Clockless>();
    who_sees_on_twice_sees_on::<Clockless>();
    a_list_fits_what_was_known_before::<Clockless>();
    means.gate.before(means.rt, ask.till, ask.serial);
    let place = usize::from(LAST_TILL - ask.till);
    inform_till(shop, held, place);
    let till = &mut held[place];
    let seconds = clock.now();
    let reply = shop.ask_at(
        means.rt,
        means.alloc,
        till,
        ask.serial,
        &ask.request,
        seconds,
    );
    inform_first(shop, held, place);
    means.gate.after(means.rt, ask.till, ask.serial);
    reply
}

/// Answers a question, by the pass of the first till.
pub fn look_held<D: Disk, C: Clock, R: Wait>(
    rt: &R,
    alloc: Global,
    shop: &Shop<D, C>,
    held: &mut Vec<Till<D, C>>,
    question: &TillQuestion,
) -> Result<Text, NoMemory>
    requires own { All (λ t. till_shop t ≡ shop_id shop.now) held.old.items }
    requires numbers { reverse (map till_number held.old.items) ≡ range_with_len 1 LAST_TILL }
    ensures own { All (λ t. till_shop t ≡ shop_id shop.now) held.new.items }
    ensures numbers { map till_number held.new.items ≡ map till_number held.old.items }
    ensures runs { (coming : ℕ → Option ℕ) → KeepsRuns coming (map till_knows held.old.items) (map till_knows held.new.items) }
    ensures looked { (coming : ℕ → Option ℕ) → LookedFor (λ c. coming) question.now result (map till_knows held.old.items)
        (map till_knows held.new.items) }
{
    who_sees_on_twice_sees_on::<C>();
    a_list_fits_what_was_known_before::<C>();
    let first = &mut held[FIRST];
    shop.look(rt, alloc, first, question)
}

/// Gives the tills back, the last one of the row first. Each tells the seat of how many items it knows.
pub fn give_back<D: Disk, C: Clock>(
    shop: &Shop<D, C>,
    tills: &mut Tills<D, C>,
    mut held: Vec<Till<D, C>>,
    seat: &mut SenderSeat<D, C>,
)
    requires own { All (λ t. till_shop t ≡ tills_shop tills.old) held.items }
    requires shop { (tills_shop tills.old ≡ shop_id shop.now) × (seat_shop seat.old ≡ shop_id shop.now) }
    requires out { (numbers tills.old ≡ []) × (tills_know tills.old ≡ []) }
    requires room { vec_len held ≤ made_tills tills.old }
    ensures knows { tills_know tills.new ≡ reverse (map till_knows held.items) }
    ensures same { (tills_shop tills.new ≡ tills_shop tills.old) × (made_tills tills.new ≡ made_tills tills.old) }
    ensures seat { (seat_shop seat.new ≡ seat_shop seat.old)
        × (seat_knows seat.new ≡ record (seat_knows seat.old) { least = (seat_knows seat.new).least }) }
    ensures told { All (λ k. k.least ≤ (seat_knows seat.new).least) (tills_know tills.new) }
{
    while let Some(mut till) = held.pop() {
        shop.tell_seat(&mut till, seat);
        tills.hand_back(till);
    }
}
