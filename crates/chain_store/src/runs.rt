//! Runs of one thread over a store: the asks of all tills, one after another, and what their replies leave.
ghost use Rattle.std.specs.Prelude.{◌≡◌, ◌≤◌, [], ◌∷◌, ◌++◌, List, None, length, vec_capacity};
ghost use Rattle.journal.specs.Journal.{stopped_of};
ghost use Rattle.shop_core.specs.Answer.Requests.{Asked};
ghost use Rattle.chain_store.specs.Replies.{Replies};
ghost use Rattle.chain_store.specs.Runs.{Answers, this_store};
ghost use Rattle.chain_store.specs.Store.{Ready, journal_of, state_of};
ghost use Rattle.chain_store.specs.Taking.{Along, FailsOnce, OwnRun};
ghost use Rattle.chain_store.specs.Took.{Took};
ghost use Rattle.chain_store.specs.declared.store.Store.{Store as AnyStore};

use crate::store::Store;
use chain_disk::Disk;
use journal::StoreFault;
use ports::Clock;
use shop_core::{Ask, Reply, legal_is_chained};
use std::alloc::Global;

/// Where a run of a store begins: no ask, and no reply.
pub fn a_run_begins<D: Disk, C: Clock>(store: &Store<D, C>)
    requires { Ready D.tells D.on_disk store.now }
    //= A run of one thread over a store begins with no ask.
    //= No body: a law over definitions, which has no body
    ensures { Along D.Disk C.Clock store.now store.now [] [] }
{
    store.state().is_legal();
}

/// The next ask of a run. A run that has come to this store goes on with it.
pub fn take_next<D: Disk, C: Clock>(
    alloc: Global,
    store: &mut Store<D, C>,
    ask: &Ask,
) -> Result<Reply, StoreFault>
    requires { Ready D.tells D.on_disk store.old }
    ensures took { Took D.Disk C.Clock store.old store.new ask.now result }
    //= A run of one thread goes on by one ask.
    //= No body: it is `take`
    ensures along { (first : AnyStore D C D.Disk) (asks : List Asked) (replies : Replies) →
        Along D.Disk C.Clock first store.old asks replies →
        Along D.Disk C.Clock first store.new (asks ++ ask.now ∷ []) (replies ++ result ∷ []) }
{
    store.take(alloc, ask)
}

/// What a run comes to.
pub fn a_run_ends<D: Disk, C: Clock>(store: &Store<D, C>)
    //= A run that began at a store is at its end a chain run of its own.
    //= No body: a law over definitions, which has no body
    ensures own { (first : AnyStore D C D.Disk) (asks : List Asked) (replies : Replies) →
        Along D.Disk C.Clock first store.now asks replies →
        OwnRun (stopped_of (journal_of first)) asks replies
        (this_store D.tells D.on_disk D.faults C.coming first store.now) }
    ensures fails { (first : AnyStore D C D.Disk) (asks : List Asked) (replies : Replies) →
        Along D.Disk C.Clock first store.now asks replies → stopped_of (journal_of first) ≡ None →
        FailsOnce D.Disk C.Clock first store.now asks replies }
{
    store.state().is_legal();
    legal_is_chained();
}

/// Replies to each ask, in order, from the store. `replies` is empty and has room for them.
pub fn run_commands<D: Disk, C: Clock>(
    alloc: Global,
    store: &mut Store<D, C>,
    asks: &[Ask],
    replies: &mut Vec<Result<Reply, StoreFault>>,
)
    requires ready { Ready D.tells D.on_disk store.old }
    requires going_on { stopped_of (journal_of store.old) ≡ None }
    requires none { replies.old.items ≡ [] }
    requires room { length asks.now ≤ vec_capacity replies.old }
    ensures issuer { (state_of store.new).issuer ≡ (state_of store.old).issuer }
    ensures version { (state_of store.new).version ≡ (state_of store.old).version }
    //= A run of asks is a chain run, whose history is legal and linked, with what each crash leaves and the clock's
    //= readings.
    //= No body: it is `Store::take`, one ask after another
    ensures answers { Answers asks.now replies.new.items (this_store D.tells D.on_disk D.faults C.coming store.old store.new) }
    //= The first fault of the disk in a run is told by a call in which its count rose.
    //= No body: it follows from `Took.fault`
    ensures fails { FailsOnce D.Disk C.Clock store.old store.new asks.now replies.new.items }
{
    a_run_begins(store);
    for ask in asks {
        replies.push_reserved(take_next(alloc, store, ask));
    }
    a_run_ends(store);
}
