//! The start of a lock: a value goes in, and passes come out.
ghost use Rattle.std.specs.Prelude.{◌≡◌, ◌≤◌, ◌<◌, [], ◌∷◌, false, length, All, IfOk, IfErr, Some, vec_len, vec_capacity, ℕ};
ghost use Rattle.chain_lock.specs.Known.{IsNew, holders};
ghost use Rattle.chain_lock.specs.Lists.{EachOf, times, total};
ghost use Rattle.chain_lock.specs.Rule.{IsAtRest, first_view, known_of};
ghost use Rattle.chain_lock.specs.Words.{all_known, lock_id, opening, pass_count, passes_lock, room_of};

use crate::act::Recorded;
use crate::lock::ChainLock;
use crate::pass::{Passes, Refused, RestingPlace, RestingSeat, SeatList};
use crate::plays::Cut;
use crate::view::{Board, Opening, Place};
use atomic_table::Table;
use std::alloc::Global;
use std::snapshot::Snapshot;
use std::sync::atomic::AtomicU64;

fn resting<V: Recorded>(place: Place<V>) -> RestingPlace<V>
    requires { IsAtRest place.me }
    ensures { result.place ≡ place }
{
    RestingSeat { place }
}

fn passes_with<V: Recorded>(list: Vec<RestingPlace<V>>, of: Snapshot<Place<V>>) -> Passes<V>
    requires { All (λ s. s.place.table_id ≡ of.value.table_id) list.items }
    ensures list { result.seats.list ≡ list }
    ensures lock { passes_lock result ≡ of.value.table_id }
{
    Passes {
        seats: SeatList { list, of },
    }
}

// Gives all but the first of its numbers to passes of their own.
fn deal<V: Recorded>(
    board: &Board<V>,
    mut place: Place<V>,
    list: &mut Vec<RestingPlace<V>>,
    passes: u16,
    value: &Snapshot<V>,
)
    requires table { (place.table_id ≡ board.now.shared.table_id) × (0 < board.now.shared.table_id.words) }
    requires list { (list.old.items ≡ []) × (passes ≤ vec_capacity list.old) × (0 < passes) }
    requires first { place.me ≡ (first_view (V.items value.now.value) (V.root value.now.value) passes, []) }
    ensures count { vec_len list.new ≡ passes }
    ensures room { vec_capacity list.new ≡ vec_capacity list.old }
    ensures each { EachOf (λ s. (s.place.table_id ≡ board.now.shared.table_id) × IsNew (V.items value.now.value)
        (V.root value.now.value) (known_of s.place.me.0)) list.new.items }
    ensures whole { (n : ℕ) → n < passes → total (λ s. times n s.place.me.0.numbers) list.new.items ≡ 1 }
{
    let _ = value;
    for made in 1..passes {
        let other = board.shared.split_seat::<Cut>(&mut place);
        list.push_reserved(resting(other));
    }
    list.push_reserved(resting(place));
}

// The table, with the value in its slot.
fn lay<V: Recorded>(
    alloc: Global,
    value: V,
    passes: u16,
) -> Result<(Board<V>, Place<V>), Refused<V>>
    requires { 0 < passes }
    ensures ok { IfOk result (λ r. (r.0.shared.table_id.words ≡ 2) × (r.0.shared.table_id.slots ≡ 1) ×
        (r.0.shared.key.count ≡ passes) × (r.0.shared.key.value.value ≡ value) × (r.1.table_id ≡ r.0.shared.table_id) ×
        (r.1.me ≡ (first_view (V.items value) (V.root value) passes, []))) }
    ensures err { IfErr result (λ e. e.value ≡ value) }
{
    let length = value.recorded();
    let about = Opening {
        value: Snapshot::of(&value),
        count: u64::from(passes),
    };
    let slots = Vec::with_capacity(alloc, 1);
    let Ok(mut slots) = slots else {
        return Err(Refused { value });
    };
    slots.push_reserved(Some(value));
    match Table::new(alloc, &[length, 0], slots, &about) {
        Ok(made) => Ok(made),
        Err(refused) => Err(taken_back(refused)),
    }
}

fn taken_back<V>(refused: atomic_table::Refused<Option<V>, Global>) -> Refused<V>
    requires { (x : V) × (refused.slots.items ≡ Some x ∷ []) }
    ensures { refused.slots.items ≡ Some result.value ∷ [] }
{
    let atomic_table::Refused { mut slots } = refused;
    let Some(last) = slots.pop() else {
        unreachable!()
    };
    slots.destroy_empty();
    let Some(value) = last else { unreachable!() };
    Refused { value }
}

impl<V: Recorded> ChainLock<V> {
    /// A lock over the value, and its passes: one for each thread that is to take turns or to glance. Each has seen the
    /// list that the value has now, and has no own items yet.
    ///
    /// Where memory runs out the value comes back. No later call on the lock or its passes takes memory.
    pub fn new(
        alloc: Global,
        value: V,
        passes: u16,
    ) -> Result<(ChainLock<V>, Passes<V>), Refused<V>>
        requires { (0 < passes) × (passes ≤ 65) }
        ensures lock { IfOk result (λ r. (opening r.0 ≡ value) × (pass_count r.0 ≡ passes)) }
        ensures own { IfOk result (λ r. passes_lock r.1 ≡ lock_id r.0) }
        ensures count { IfOk result (λ r. (length (all_known r.1) ≡ passes) × (passes ≤ room_of r.1)) }
        ensures each { IfOk result (λ r. All (IsNew (V.items value) (V.root value)) (all_known r.1)) }
        ensures whole { IfOk result (λ r. (n : ℕ) → n < passes → holders n (all_known r.1) ≡ 1) }
        //= Where memory runs out the value is handed back.
        //= No body: it is one `Err` of the value
        ensures err { IfErr result (λ e. e.value ≡ value) }
    {
        let list = Vec::with_capacity(alloc, usize::from(passes));
        let Ok(mut list) = list else {
            return Err(Refused { value });
        };
        let about = Snapshot::of(&value);
        match lay(alloc, value, passes) {
            Ok((board, place)) => {
                let of = Snapshot::of(&place);
                deal(&board, place, &mut list, passes, &about);
                let passes_made = passes_with(list, of);
                let lock = ChainLock {
                    board,
                    asleep: AtomicU64::new(0),
                    count: passes,
                };
                Ok((lock, passes_made))
            }
            Err(refused) => {
                list.destroy_empty();
                Err(refused)
            }
        }
    }
}
