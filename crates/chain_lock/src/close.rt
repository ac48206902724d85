//! The end of a lock: one pass that has all numbers gives the value back.
ghost use Rattle.std.specs.Prelude.{◌≡◌, ◌≤◌, ◌<◌, ◌+◌, length, All, List, ℕ};
ghost use Rattle.chain_lock.specs.Known.{Fits, holders, owners};
ghost use Rattle.chain_lock.specs.Lists.{EachOf, StartsWith, placed, times, total};
ghost use Rattle.chain_lock.specs.Rule.{FitsAll, IsAtRest};
ghost use Rattle.chain_lock.specs.Words.{all_known, lock_id, opening, pass_count, passes_lock};

use crate::act::Recorded;
use crate::lock::ChainLock;
use crate::pass::{Passes, RestingPlace, RestingSeat, SeatList};
use crate::plays::Glue;
use crate::view::{Board, Place};

fn place_of<V: Recorded>(seat: RestingPlace<V>) -> Place<V>
    ensures same { result ≡ seat.place }
    ensures at_rest { IsAtRest result.me }
{
    let RestingSeat { place } = seat;
    place
}

// Joins all passes into one.
fn join_all<V: Recorded>(board: &Board<V>, place: &mut Place<V>, mut list: Vec<RestingPlace<V>>)
    requires table { (place.old.table_id ≡ board.now.shared.table_id) × (0 < board.now.shared.table_id.words) }
    requires rest { IsAtRest place.old.me }
    requires list { EachOf (λ s. s.place.table_id ≡ board.now.shared.table_id) list.items }
    ensures table { (place.new.table_id ≡ board.now.shared.table_id) × IsAtRest place.new.me }
    ensures fits { (log : List V.Item) → FitsAll log place.new.me.0 → FitsAll log place.old.me.0 ×
        EachOf (λ s. FitsAll log s.place.me.0) list.items }
    ensures numbers { (n : ℕ) → times n place.new.me.0.numbers ≡ times n place.old.me.0.numbers + total
        (λ s. times n s.place.me.0.numbers) list.items }
    ensures places { (n : ℕ) → placed n place.new.me.0.own ≡ placed n place.old.me.0.own + total (λ s. placed n s.place.me.0.own)
        list.items }
{
    while let Some(seat) = list.pop() {
        board.shared.join_seat::<Glue>(place, place_of(seat));
    }
    list.destroy_empty();
}

// Closes the table, in which one pass has all numbers.
fn take_out<V: Recorded>(board: Board<V>, place: Place<V>) -> V
    requires table { (place.table_id ≡ board.shared.table_id) × (board.shared.table_id.slots ≡ 1) }
    requires rest { IsAtRest place.me }
    requires whole { (0 < board.shared.key.count) × ((n : ℕ) → n < board.shared.key.count → 0 < times n place.me.0.numbers) }
    ensures root { V.root result ≡ V.root board.shared.key.value.value }
    ensures begins { StartsWith (V.items result) (V.items board.shared.key.value.value) }
    ensures fits { FitsAll (V.items result) place.me.0 }
    ensures before { (n : ℕ) → n < length (V.items board.shared.key.value.value) → placed n place.me.0.own ≡ 0 }
    ensures since { (n : ℕ) → length (V.items board.shared.key.value.value) ≤ n → n < length (V.items result) →
        placed n place.me.0.own ≡ 1 }
{
    let mut closed = board.close_with(place);
    let slot = closed.take(0);
    closed.free();
    let Some(value) = slot else { unreachable!() };
    value
}

impl<V: Recorded> ChainLock<V> {
    /// Ends the lock and gives the value, once all passes are back. It waits for nobody and takes no memory.
    ///
    /// The list of the value begins with what each pass has seen, has each pass's own items at their places, and has no
    /// other items since opening.
    pub fn close(self, passes: Passes<V>) -> V
        requires own { passes_lock passes ≡ lock_id self }
        requires whole { (n : ℕ) → n < pass_count self → 0 < holders n (all_known passes) }
        ensures root { V.root result ≡ V.root (opening self) }
        //= What is given back begins with what there was at the opening.
        //= No body: it is the lock's rule, which each step keeps
        ensures begins { StartsWith (V.items result) (V.items (opening self)) }
        //= What is given back begins with what each pass has seen, and has each pass's own items at their places.
        //= No body: it is the lock's rule, which each step keeps
        ensures each { All (Fits (V.items result)) (all_known passes) }
        ensures before { (n : ℕ) → n < length (V.items (opening self)) → owners n (all_known passes) ≡ 0 }
        //= Each place since the opening is owned by exactly one pass.
        //= No body: it is the lock's rule, which each step keeps
        ensures since { (n : ℕ) → length (V.items (opening self)) ≤ n → n < length (V.items result) → owners n (all_known passes)
            ≡ 1 }
    {
        let Passes { seats } = passes;
        let SeatList { mut list, of: _ } = seats;
        let ChainLock {
            board,
            asleep: _,
            count: _,
        } = self;
        let last = list.pop();
        let Some(seat) = last else { unreachable!() };
        let mut place = place_of(seat);
        join_all(&board, &mut place, list);
        take_out(board, place)
    }
}
