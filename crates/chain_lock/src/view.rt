//! What the table knows of a pass, and the rule of the table.
//! Word 0 is the length of the list, word 1 is 1 while a pass has the turn and else 0, and slot 0 is the value's place.
use crate::act::Recorded;
use atomic_table::{Seat, Table, TableRule};
use std::alloc::Global;
use std::collections::LinkedList;
use std::marker::PhantomData;
use std::snapshot::Snapshot;

/// What a pass knows. No value of it is made.
pub struct View<I, R> {
    /// It has the turn.
    pub turning: bool,
    /// Its share of the numbers below the count of passes.
    pub numbers: LinkedList<u64>,
    /// A beginning of the list.
    pub seen: LinkedList<I>,
    /// What the passes had seen that were joined into it.
    pub met: LinkedList<LinkedList<I>>,
    /// The list has at least this many items.
    pub least: u64,
    /// The items that it has added, each with its place in the list.
    pub own: LinkedList<(u64, I)>,
    /// The root of the value. A pass that was joined into another has none.
    pub root: Option<R>,
}

/// The value at opening, and how many passes are made.
#[derive(Drop)]
pub struct Opening<V> {
    pub value: Snapshot<V>,
    pub count: u64,
}

pub struct LockRule<V> {
    of: PhantomData<V>,
}

impl<V: Recorded> TableRule<Option<V>, View<V::Item, V::Root>, Opening<V>> for LockRule<V> {
    ghost use Rattle.chain_lock.specs.Rule.{KeptByLock, first_view};

    ghost holds = { λ key. KeptByLock V.items V.root (V.items key.value.value) (V.root key.value.value) key.count };

    ghost first = { λ key. first_view (V.items key.value.value) (V.root key.value.value) key.count };
}

pub type Place<V> = Seat<Option<V>, View<<V as Recorded>::Item, <V as Recorded>::Root>>;

pub type Board<V> = Table<
    Option<V>,
    View<<V as Recorded>::Item, <V as Recorded>::Root>,
    Opening<V>,
    LockRule<V>,
    Global,
>;
