//! Keeps an entry in a journal and then in the state, in two halves: what needs memory, and what calls the disk.
ghost use Rattle.std.specs.Prelude.{◌≡◌, IfOk, OnOk, OnErr, Some, None};
ghost use Rattle.journal.specs.Journal.{disk_of, end_of, stopped_of};
ghost use Rattle.record_codec.specs.Writing.{entry_bytes};
ghost use Rattle.shop_core.specs.Legal.{Continues};
ghost use Rattle.chain_store.specs.Keeping.{Keeps};
ghost use Rattle.chain_store.specs.Ready.{IsReady};

use chain_disk::Disk;
use journal::{Journal, JournalFault, a_file_stands_for_one_chain};
use ports::{Failed, NoMemory};
use record_codec::{Entry, an_encoding_is_a_body, encode, encodings_are_apart, fields_are_valid};
use record_fields::Bytes;
use shop_core::{State, a_legal_history_goes_on, what_continues_fits_its_bytes};
use std::alloc::Global;

/// Makes room for an entry that continues the history, and gives its bytes. Then `keep` takes no memory. No disk is called.
pub fn prepare(alloc: Global, state: &mut State, entry: &Entry) -> Result<Bytes, NoMemory>
    requires { Continues state.old.version state.old.issuer state.old.entries entry.now }
    ensures bytes { IfOk result (λ bytes. bytes ≡ entry_bytes state.old.version entry.now) }
    ensures room { OnOk result (state.new ≡ record {
      issuer = state.old.issuer;
      version = state.old.version;
      entries = state.old.entries;
      room = Some entry.now;
    }) }
    ensures err { OnErr result (state.new ≡ state.old) }
    ensures same { (state.new.issuer ≡ state.old.issuer) × (state.new.version ≡ state.old.version)
        × (state.new.entries ≡ state.old.entries) }
{
    what_continues_fits_its_bytes();
    let bytes = encode(alloc, state.version(), entry)?;
    state.reserve(entry)?;
    Ok(bytes)
}

/// Keeps an entry that continues the history, in the journal and then in the state, in the room that was made for it. The
/// bytes are its encoding. It takes no memory: what fails is the disk, and that stops the journal.
pub fn keep<D: Disk>(
    state: &mut State,
    journal: &mut Journal<D>,
    entry: Entry,
    bytes: &[u8],
) -> Result<(), Failed>
    requires going_on { stopped_of journal.old ≡ None }
    requires ready { IsReady D.tells state.old None (end_of journal.old) (D.on_disk (disk_of journal.old)) }
    requires continues { Continues state.old.version state.old.issuer state.old.entries entry }
    requires room { state.old.room ≡ Some entry }
    requires encoding { bytes.now ≡ entry_bytes state.old.version entry }
    ensures { Keeps D.tells D.on_disk D.faults state.old state.new journal.old journal.new entry result }
{
    a_legal_history_goes_on();
    what_continues_fits_its_bytes();
    an_encoding_is_a_body();
    encodings_are_apart();
    a_file_stands_for_one_chain();
    fields_are_valid(state.version(), &entry);
    let _few = state.entries();
    state.is_legal();
    match journal.append(bytes) {
        Ok(_) => {
            state.apply_encoded(entry, bytes);
            Ok(())
        }
        Err(JournalFault::DiskFault) => Err(Failed),
        Err(JournalFault::Stopped { .. }) => unreachable!(),
    }
}
