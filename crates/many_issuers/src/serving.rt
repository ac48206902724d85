//! The commands of several issuers, answered by the stores of those whose files were opened.
ghost use Rattle.std.specs.Prelude.{◌≡◌, ◌≤◌, ◌<◌, ◌+◌, [], All, IfOk, length, map, vec_capacity, vec_len};
ghost use Rattle.chain_store.specs.Store.{Ready};
ghost use Rattle.issuers.specs.Office.{AreOwn, issuer_of};
ghost use Rattle.issuers.specs.Parts.{HasLines};
ghost use Rattle.issuers.specs.Serving.{replies_to};
ghost use Rattle.parties.specs.declared.limits.TheConstants.{MAX_ISSUERS};
ghost use Rattle.many_issuers.specs.Served.{EachServed};

use chain_disk::Disk;
use chain_store::Store;
use issuers::{Office, OfficeAnswer, OfficeAnswers, Parts, Stores};
use journal::StoreFault;
use ports::{Clock, NoMemory};
use shop_core::Reply;
use std::alloc::Global;

/// Stores that have answered, and their answers.
#[derive(Drop)]
pub(crate) struct Served<D: Disk, C: Clock> {
    pub(crate) stores: Vec<Store<D, C>>,
    pub(crate) answers: OfficeAnswers,
    /// Whether there was memory for all answers.
    pub(crate) all: Result<(), NoMemory>,
}

/// Takes the asks of all parts, each at its store.
pub(crate) fn serve_stores<D: Disk, C: Clock>(
    alloc: Global,
    stores: Vec<Store<D, C>>,
    parts: &Parts,
) -> Served<D, C>
    requires few { length stores.items ≤ MAX_ISSUERS }
    requires distinct { AreOwn (map issuer_of stores.items) }
    requires one_each { length parts.now ≡ length stores.items }
    requires lines { All HasLines parts.now }
    requires ready { All (Ready D.tells D.on_disk) stores.items }
    ensures ready { All (Ready D.tells D.on_disk) result.stores.items }
    ensures served { EachServed D.Disk C.Clock parts.now stores.items result.stores.items result.answers result.all }
{
    let mut answers = OfficeAnswers::new(alloc);
    if stores.is_empty() {
        return Served {
            stores,
            answers,
            all: Ok(()),
        };
    }
    let mut office = Office::of(Stores::of(stores));
    let all = office.serve(alloc, parts, &mut answers);
    Served {
        stores: office.into_stores().into_vec(),
        answers,
        all,
    }
}

/// The replies to the issuer of this index, in their order.
pub(crate) fn replies_of(
    alloc: Global,
    answers: &[OfficeAnswer],
    index: u16,
) -> Result<Vec<Result<Reply, StoreFault>>, NoMemory>
    ensures { IfOk result (λ replies. replies.items ≡ replies_to index answers.now) }
{
    let replies = answers
        .iter()
        .filter(|answer| answer.index == index)
        .map(|answer| answer.reply)
        .collect(alloc)?;
    Ok(replies)
}
