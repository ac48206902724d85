//! The files of several issuers, opened one after another.
ghost use Rattle.std.specs.Prelude.{◌≡◌, ◌≤◌, ◌+◌, ◌∷◌, [], ℕ, List, IfOk, length, reverse, vec_capacity};
ghost use Rattle.many_issuers.specs.IssuerFiles.{AreOpened, AreOpenedOf, HasRoom, Start};

use chain_disk::Disk;
use chain_store::Store;
use issuers::Part;
use parties::Nif;
use ports::{Clock, NoMemory};
use shop_drain::{Opened, Post, Unopened, open};
use std::alloc::Global;

/// What an issuer has besides its store.
#[derive(Drop)]
pub(crate) enum IssuerFile<D, C, Z, G> {
    /// Its file wasn't opened.
    Closed {
        issuer: Nif,
        unopened: Unopened<D, C, Z, G>,
    },
    /// Its file was opened.
    Open {
        issuer: Nif,
        sleeper: Z,
        agency: G,
    },
}

/// The issuers of an installation: a file for each, and in their order the stores and the parts of those whose files were opened.
#[derive(Drop)]
pub(crate) struct Installation<D: Disk, C: Clock, Z, G> {
    pub(crate) issuer_files: Vec<IssuerFile<D, C, Z, G>>,
    pub(crate) stores: Vec<Store<D, C>>,
    pub(crate) parts: Vec<Part>,
}

impl<D: Disk + Drop, C: Clock + Drop, Z: Drop, G: Drop> Installation<D, C, Z, G> {
    /// Room for this many issuers.
    pub(crate) fn with_room(
        alloc: Global,
        count: usize,
    ) -> Result<Installation<D, C, Z, G>, NoMemory>
        ensures none { IfOk result (λ d. (d.issuer_files.items ≡ []) × (d.stores.items ≡ []) × (d.parts.items ≡ [])) }
        ensures room { IfOk result (HasRoom count) }
    {
        let issuer_files = Vec::with_capacity(alloc, count)?;
        let stores = Vec::with_capacity(alloc, count)?;
        let parts = Vec::with_capacity(alloc, count)?;
        Ok(Installation {
            issuer_files,
            stores,
            parts,
        })
    }
}

// Opens the file of the issuer in front of those so far, which stand from the last to the first.
fn open_next<D: Disk, C: Clock, Z, G>(
    alloc: Global,
    issuer: &Nif,
    part: Part,
    post: Post<D, C, Z, G>,
    installation: &mut Installation<D, C, Z, G>,
)
    requires room { HasRoom 1 installation.old }
    ensures room { (more : ℕ) → HasRoom (more + 1) installation.old → HasRoom more installation.new }
    ensures opened { (starts : List (Start D C Z G)) →
        AreOpened D.Disk C.Clock starts (reverse installation.old.issuer_files.items) (reverse installation.old.stores.items)
        (reverse installation.old.parts.items) →
        AreOpened D.Disk C.Clock (record { issuer = issuer.now; part = part; post = post } ∷ starts)
        (reverse installation.new.issuer_files.items) (reverse installation.new.stores.items) (reverse installation.new.parts.items) }
{
    let issuer = *issuer;
    match open(alloc, &issuer, post) {
        Err(unopened) => installation
            .issuer_files
            .push_reserved(IssuerFile::Closed { issuer, unopened }),
        Ok(opened) => {
            let Opened {
                store,
                sleeper,
                agency,
            } = opened;
            installation.issuer_files.push_reserved(IssuerFile::Open {
                issuer,
                sleeper,
                agency,
            });
            installation.stores.push_reserved(store);
            installation.parts.push_reserved(part);
        }
    }
}

/// The list the other way round.
pub(crate) fn turned<T>(list: Vec<T>) -> Vec<T>
    ensures { result.items ≡ reverse list.items }
{
    let mut list = list;
    list.reverse();
    list
}

// Opens the file of each of these issuers, from the last to the first.
fn open_back<D: Disk, C: Clock, Z, G>(
    alloc: Global,
    issuers: &[Nif],
    parts: &mut Vec<Part>,
    posts: &mut Vec<Post<D, C, Z, G>>,
    installation: &mut Installation<D, C, Z, G>,
)
    requires one_each { length posts.old.items ≡ length issuers.now }
    requires each { length parts.old.items ≡ length issuers.now }
    requires none { (installation.old.issuer_files.items ≡ []) × (installation.old.stores.items ≡ []) × (installation.old.parts.items ≡ []) }
    requires room { HasRoom (length issuers.now) installation.old }
    ensures opened { AreOpenedOf D.Disk C.Clock issuers.now parts.old.items posts.old.items (reverse installation.new.issuer_files.items)
        (reverse installation.new.stores.items) (reverse installation.new.parts.items) }
    ensures posts { (posts.new.items ≡ []) × (vec_capacity posts.new ≡ vec_capacity posts.old) }
{
    while let Some(post) = posts.pop() {
        let Some(part) = parts.pop() else {
            unreachable!()
        };
        open_next(alloc, &issuers[posts.len()], part, post, installation);
    }
}

/// Opens the file of each of these issuers.
pub(crate) fn open_all<D: Disk, C: Clock, Z, G>(
    alloc: Global,
    issuers: &[Nif],
    parts: Vec<Part>,
    posts: &mut Vec<Post<D, C, Z, G>>,
    installation: Installation<D, C, Z, G>,
) -> Installation<D, C, Z, G>
    requires one_each { length posts.old.items ≡ length issuers.now }
    requires each { length parts.items ≡ length issuers.now }
    requires none { (installation.issuer_files.items ≡ []) × (installation.stores.items ≡ []) × (installation.parts.items ≡ []) }
    requires room { HasRoom (length issuers.now) installation }
    ensures opened { AreOpenedOf D.Disk C.Clock issuers.now parts.items posts.old.items result.issuer_files.items result.stores.items
        result.parts.items }
    ensures posts { (posts.new.items ≡ []) × (vec_capacity posts.new ≡ vec_capacity posts.old) }
{
    let mut parts = parts;
    let mut installation = installation;
    open_back(alloc, issuers, &mut parts, posts, &mut installation);
    let Installation {
        issuer_files,
        stores,
        parts,
    } = installation;
    Installation {
        issuer_files: turned(issuer_files),
        stores: turned(stores),
        parts: turned(parts),
    }
}
