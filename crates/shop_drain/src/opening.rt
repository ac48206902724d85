//! From a post to an opened file, on to a shop that has begun over it, and back.
ghost use Rattle.std.specs.Prelude.{◌≡◌, ◌≤◌, ◌⊎◌, IsTrue, All, IfOk, IfErr, OnOk, OnErr, None, length};
ghost use Rattle.std.specs.Int.{IsInRange};
ghost use Rattle.chain_store.specs.Store.{Ready, journal_of};
ghost use Rattle.journal.specs.Journal.{stopped_of};
ghost use Rattle.record_codec.specs.declared.entry.TheConstants.{LAST_TILL};
ghost use Rattle.till_calls.specs.Root.{parts_of};
ghost use Rattle.sender_session.specs.Kinds.{agency_state_of, agency_kind, store_kind};
ghost use Rattle.shop_drain.specs.Devices.{disk_in};
ghost use Rattle.shop_drain.specs.Draining as spec;
ghost use Rattle.shop_drain.specs.Draining.{OpensSession};
ghost use Rattle.shop_drain.specs.Opening as opening;
ghost use Rattle.shop_drain.specs.Opening.{IsOpened, IsUnbegun, IsUnopened};
ghost use Rattle.shop_drain.specs.Started.{IsBegun};

use crate::posts::Post;
use agency_port::Agency;
use agency_rules::Plan;
use chain_disk::Disk;
use chain_store::{OpenCause, Store};
use parties::Nif;
use ports::{Clock, CountingClock, LeapSleeper, NoMemory, Sleeper};
use record_fields::{Line, Sealed};
use recovery::open_store;
use report::Detail;
use shop_core::{State, a_file_has_one_meaning, a_history_notes_its_records};
use std::alloc::Global;
use till_calls::{Shop, StartRefused, Started};

/// A post whose file was opened: a store stands for disk and clock.
#[derive(Drop)]
pub struct Opened<D: Disk, C: Clock, Z, G> {
    pub store: Store<D, C>,
    pub sleeper: Z,
    pub agency: G,
}

impl<D: Disk, C: Clock, Z, G> Opened<D, C, Z, G> {
    ghost use Rattle.std.specs.Prelude.{◌≡◌, ℕ, Some};
    ghost use Rattle.chain_store.specs.Store.{clock_of, journal_of, state_of, torn_of};
    ghost use Rattle.ports.specs.Counting.{counting};

    /// The same by another clock, and the one that it had.
    pub fn with_clock<B: Clock>(self, clock: B) -> (Opened<D, B, Z, G>, C)
        ensures store { (state_of result.0.store ≡ state_of self.store) × (journal_of result.0.store ≡ journal_of self.store)
            × (torn_of result.0.store ≡ torn_of self.store) }
        ensures clocks { (clock_of result.0.store ≡ clock) × (result.1 ≡ clock_of self.store) }
        ensures rest { (result.0.sleeper ≡ self.sleeper) × (result.0.agency ≡ self.agency) }
    {
        let Opened {
            store,
            sleeper,
            agency,
        } = self;
        let (store, before) = store.with_clock(clock);
        let opened = Opened {
            store,
            sleeper,
            agency,
        };
        (opened, before)
    }

    /// The clock and the sleeper of a clock line in their places, and those that it replaces.
    pub fn with_own_time(
        self,
        start: u64,
        step: u64,
    ) -> (Opened<D, CountingClock, LeapSleeper, G>, C, Z)
        ensures store { (state_of result.0.store ≡ state_of self.store) × (journal_of result.0.store ≡ journal_of self.store)
            × (torn_of result.0.store ≡ torn_of self.store) }
        ensures clock { (k : ℕ) → ⟦<CountingClock as Clock>⟧.coming (clock_of result.0.store) k ≡ Some (counting start step k) }
        ensures sleeper { ⟦<LeapSleeper as Sleeper>⟧.moment result.0.sleeper ≡ start }
        ensures agency { result.0.agency ≡ self.agency }
        ensures replaced { (result.1 ≡ clock_of self.store) × (result.2 ≡ self.sleeper) }
    {
        let Opened {
            store,
            sleeper,
            agency,
        } = self;
        let (store, clock) = store.with_clock(CountingClock::new(start, step));
        let own = Opened {
            store,
            sleeper: LeapSleeper::new(start),
            agency,
        };
        (own, clock, sleeper)
    }
}

impl<D: Disk, G> Opened<D, CountingClock, LeapSleeper, G> {
    ghost use Rattle.std.specs.Prelude.{◌≡◌};
    ghost use Rattle.chain_store.specs.Store.{clock_of, journal_of, state_of, torn_of};

    /// This clock and this sleeper in place of a clock line's.
    pub fn with_time<C: Clock, Z>(self, clock: C, sleeper: Z) -> Opened<D, C, Z, G>
        ensures store { (state_of result.store ≡ state_of self.store) × (journal_of result.store ≡ journal_of self.store)
            × (torn_of result.store ≡ torn_of self.store) }
        ensures agency { result.agency ≡ self.agency }
        ensures time { (clock_of result.store ≡ clock) × (result.sleeper ≡ sleeper) }
    {
        let Opened { store, agency, .. } = self;
        let (store, _) = store.with_clock(clock);
        Opened {
            store,
            sleeper,
            agency,
        }
    }
}

/// Why a file wasn't opened, and the post again.
#[derive(Drop)]
pub struct Unopened<D, C, Z, G> {
    pub why: OpenCause,
    pub post: Post<D, C, Z, G>,
}

/// An opened file over which a shop has begun, with an agency whose session is open.
#[derive(Drop)]
pub struct Begun<D: Disk, C: Clock, Z, G> {
    pub started: Started<D, C>,
    pub sleeper: Z,
    pub agency: G,
}

/// Opens the file of a post for this issuer.
pub fn open<D: Disk, C: Clock, Z, G>(
    alloc: Global,
    issuer: &Nif,
    post: Post<D, C, Z, G>,
) -> Result<Opened<D, C, Z, G>, Unopened<D, C, Z, G>>
    ensures ready { IfOk result (λ o. Ready D.tells D.on_disk o.store) }
    ensures going_on { IfOk result (λ o. stopped_of (journal_of o.store) ≡ None) }
    //= Opening gives a store of this issuer with the history that the file stands for; the clock isn't read.
    ensures opened { IfOk result (λ o. IsOpened issuer.now (store_kind D.Disk C.Clock) post.disk post.clock (parts_of o.store)) }
    ensures kept { IfOk result (λ o. (o.sleeper ≡ post.sleeper) × (o.agency ≡ post.agency)) }
    //= Where the file can't be opened it tells why; a fault of the disk comes only where the disk's count rose.
    //= No body: it is of `open_store`, whose clauses refuse other causes
    ensures unopened { IfErr result (λ u. IsUnopened issuer.now u.why (disk_in D.Disk post u.post)) }
    ensures left { IfErr result (λ u. (u.post.clock ≡ post.clock) × (u.post.sleeper ≡ post.sleeper)
        × (u.post.agency ≡ post.agency)) }
{
    let Post {
        disk,
        clock,
        sleeper,
        agency,
    } = post;
    a_file_has_one_meaning();
    match open_store(alloc, disk, clock, issuer) {
        Ok(store) => Ok(Opened {
            store,
            sleeper,
            agency,
        }),
        Err(fault) => Err(Unopened {
            why: fault.cause,
            post: Post {
                disk: fault.disk,
                clock: fault.clock,
                sleeper,
                agency,
            },
        }),
    }
}

/// The end of a command whose file couldn't be opened for this cause.
pub fn opening_end(cause: &OpenCause) -> Detail
    ensures { result ≡ opening.opening_end cause.now }
{
    match cause {
        OpenCause::DiskFault => Detail::DiskFault,
        OpenCause::Damaged { at } => Detail::Damaged { at: *at },
        OpenCause::OtherIssuer { held } => Detail::OtherIssuer { held: *held },
        OpenCause::NoMemory => Detail::NoMemory,
    }
}

/// Closes the file of a post.
pub fn close<D: Disk, C: Clock, Z, G>(opened: Opened<D, C, Z, G>) -> Post<D, C, Z, G>
    ensures disk { result.disk ≡ (parts_of opened.store).disk }
    ensures clock { result.clock ≡ (parts_of opened.store).clock }
    ensures rest { (result.sleeper ≡ opened.sleeper) × (result.agency ≡ opened.agency) }
{
    let Opened {
        store,
        sleeper,
        agency,
    } = opened;
    let (_, disk, clock) = store.into_parts();
    Post {
        disk,
        clock,
        sleeper,
        agency,
    }
}

/// Opens the agency's session with this plan and the pairs noted in the file, and begins a shop over it with a till for each of
/// these numbers. Where memory runs out the opened file comes back, with its session open or not.
pub fn begin<D: Disk, C: Clock, Z, G: Agency>(
    alloc: Global,
    plan: &Plan,
    tills: &[u8],
    opened: Opened<D, C, Z, G>,
) -> Result<Begun<D, C, Z, G>, Opened<D, C, Z, G>>
    requires numbers { All (IsInRange 1 LAST_TILL) tills.now }
    requires few { length tills.now ≤ LAST_TILL }
    requires going_on { stopped_of (journal_of opened.store) ≡ None }
    requires ready { Ready D.tells D.on_disk opened.store }
    //= A shop begins over an opened file with a till for each number.
    //= No body: it is of `Shop::start`
    ensures shop { IfOk result (λ b. IsBegun D.on_disk D.faults (parts_of opened.store) tills.now b.started) }
    //= The agency's session is opened with this plan and the pairs noted in the file.
    ensures session { IfOk result (λ b. OpensSession (agency_kind G.Agency) G.begun plan.now
        (parts_of opened.store).state.entries (agency_state_of G.Agency opened.agency) (agency_state_of G.Agency b.agency)) }
    ensures sleeper { IfOk result (λ b. b.sleeper ≡ opened.sleeper) }
    //= Where memory runs out the store comes back as it was, with the session opened or not.
    //= No body: it is of `Shop::start`, which hands it back
    ensures refused { IfErr result (λ o. (parts_of o.store ≡ parts_of opened.store) × (o.sleeper ≡ opened.sleeper)
        × (IsUnbegun (agency_kind G.Agency) (agency_state_of G.Agency opened.agency) (agency_state_of G.Agency o.agency)
        ⊎ OpensSession (agency_kind G.Agency) G.begun plan.now (parts_of opened.store).state.entries
        (agency_state_of G.Agency opened.agency) (agency_state_of G.Agency o.agency))) }
{
    let Opened {
        store,
        sleeper,
        mut agency,
    } = opened;
    store.state().is_legal();
    match begin_session(alloc, plan, store.state(), &mut agency) {
        Err(_) => Err(Opened {
            store,
            sleeper,
            agency,
        }),
        Ok(()) => match Shop::start(alloc, store, tills) {
            Ok(started) => Ok(Begun {
                started,
                sleeper,
                agency,
            }),
            Err(StartRefused { store }) => Err(Opened {
                store,
                sleeper,
                agency,
            }),
        },
    }
}

// The first records of a history, each with the line noted for it.
fn noted_pairs(alloc: Global, state: &State) -> Result<Vec<(Sealed, Line)>, NoMemory>
    ensures { IfOk result (λ pairs. pairs.items ≡ spec.noted_pairs state.now.entries) }
{
    let count = state.noted();
    let mut pairs = Vec::new(alloc);
    for n in 0..count {
        let Some(sealed) = state.sealed(alloc, n + 1)? else {
            return Ok(pairs);
        };
        let Some(line) = state.line(n + 1) else {
            return Ok(pairs);
        };
        pairs.push((sealed, line))?;
    }
    Ok(pairs)
}

/// Opens the agency's session with this plan and the pairs noted in the history.
pub fn begin_session<G: Agency>(
    alloc: Global,
    plan: &Plan,
    state: &State,
    agency: &mut G,
) -> Result<(), NoMemory>
    ensures ok { OnOk result (OpensSession (agency_kind G.Agency) G.begun plan.now state.now.entries
        (agency_state_of G.Agency agency.old) (agency_state_of G.Agency agency.new)) }
    ensures err { OnErr result ((IsTrue G.tells → G.ledger agency.new ≡ G.ledger agency.old)
        × (G.faults agency.new ≡ G.faults agency.old)) }
{
    a_history_notes_its_records();
    state.is_legal();
    let pairs = noted_pairs(alloc, state)?;
    agency.begin(alloc, plan, &pairs)
}
