//! What is printed of several issuers, how the run of them ends, and their posts again.
ghost use Rattle.std.specs.Prelude.{◌≡◌, ◌≤◌, ◌<◌, ◌+◌, ◌++◌, ◌∷◌, [], ℕ, List, IfOk, Result, length, map, vec_capacity, vec_len};
ghost use Rattle.ports.specs.Sinks.{OutputIs, Sinks, this_sink};
ghost use Rattle.ports.specs.declared.faults.NoMemory.{NoMemory as Lacking};
ghost use Rattle.report.specs.declared.status.Detail.{Detail as End};
ghost use Rattle.many_issuers.specs.Dones.{BadIs, IsWhole, IssuersEnd, PutsBlock, dones_in};

use crate::opening::turned;
use crate::working::{Done, IssuerJob};
use chain_disk::Disk;
use file_commands::write_texts;
use ports::{Clock, Failed, NoMemory, Sink};
use record_fields::Text;
use report::{Detail, status_of};
use shop_drain::Post;
use std::alloc::Global;

// Adds a block, where there was memory for it.
fn put_block(text: &mut Vec<u8>, block: &Result<Text, NoMemory>) -> Result<(), NoMemory>
    ensures { PutsBlock text.old.items block.now text.new.items result }
{
    match block {
        Err(_) => Err(NoMemory),
        Ok(block) => {
            text.extend_from_slice(block.as_slice())?;
            Ok(())
        }
    }
}

// The blocks of all issuers.
fn whole_text<D, C, Z, G>(alloc: Global, dones: &[Done<D, C, Z, G>]) -> Result<Vec<u8>, NoMemory>
    ensures { IfOk result (λ text. IsWhole (map (λ d. d.block) dones.now) text.items) }
{
    let mut text = Vec::new(alloc);
    for done in dones {
        put_block(&mut text, &done.block)?;
    }
    Ok(text)
}

// The end of the first issuer whose status isn't 0.
fn first_bad<D, C, Z, G>(dones: &[Done<D, C, Z, G>]) -> Option<Detail>
    requires { length dones.now ≤ 65536 }
    ensures { BadIs (map (λ d. d.end) dones.now) result }
{
    for index in 0..dones.len() {
        let status = status_of(&dones[index].end);
        if status != 0 {
            return Some(Detail::Issuer {
                index: index as u16,
                status,
            });
        }
    }
    None
}

// The end of the run whose text was written or not.
fn end_of(bad: Option<Detail>, written: Result<(), Failed>) -> Detail
    ensures { (ends : List End) (blocks : List (Result (List ℕ) Lacking)) (text : List ℕ) (s : Sinks) →
        BadIs ends bad → IsWhole blocks text → OutputIs s text written → IssuersEnd ends blocks s result }
{
    match bad {
        Some(end) => end,
        None => match written {
            Ok(()) => Detail::Done,
            Err(_) => Detail::WriteFault,
        },
    }
}

/// Prints the blocks of all issuers. How the run ends.
pub(crate) fn print_blocks<K: Sink, D, C, Z, G>(
    alloc: Global,
    dones: &[Done<D, C, Z, G>],
    sink: &mut K,
) -> Detail
    requires { length dones.now ≤ 65536 }
    ensures { IssuersEnd (map (λ d. d.end) dones.now) (map (λ d. d.block) dones.now)
        (this_sink K.taken K.faults sink.old sink.new) result }
{
    let Ok(text) = whole_text(alloc, dones) else {
        return Detail::NoMemory;
    };
    let bad = first_bad(dones);
    let written = write_texts(sink, &text, b"");
    end_of(bad, written)
}

/// The posts again, in their order, in the room given.
pub(crate) fn give_back<D: Drop, C: Drop, Z: Drop, G: Drop>(
    dones: Vec<Done<D, C, Z, G>>,
    posts: Vec<Post<D, C, Z, G>>,
) -> Vec<Post<D, C, Z, G>>
    requires none { posts.items ≡ [] }
    requires room { length dones.items ≤ vec_capacity posts }
    ensures { result.items ≡ map (λ d. d.post) dones.items }
{
    let mut dones = dones;
    let mut posts = posts;
    while let Some(done) = dones.pop() {
        let Done { post, .. } = done;
        posts.push_reserved(post);
    }
    turned(posts)
}

// Keeps what was done of a job.
fn keep_done<D: Disk + Drop, C: Clock + Drop, Z: Drop, G: Drop>(
    job: IssuerJob<D, C, Z, G>,
    dones: &mut Vec<Done<D, C, Z, G>>,
)
    requires { vec_len dones.old < vec_capacity dones.old }
    ensures kept { dones.new.items ≡ dones.old.items ++ dones_in (job ∷ []) }
    ensures few { vec_len dones.new ≤ vec_len dones.old + 1 }
    ensures room { vec_capacity dones.new ≡ vec_capacity dones.old }
{
    let IssuerJob { task: _, done } = job;
    if let Some(done) = done {
        dones.push_reserved(done);
    }
}

/// What is done of the jobs, in their order, in the room given.
pub(crate) fn dones_of<D: Disk + Drop, C: Clock + Drop, Z: Drop, G: Drop>(
    jobs: Vec<IssuerJob<D, C, Z, G>>,
    dones: Vec<Done<D, C, Z, G>>,
) -> Vec<Done<D, C, Z, G>>
    requires none { dones.items ≡ [] }
    requires room { length jobs.items ≤ vec_capacity dones }
    ensures { result.items ≡ dones_in jobs.items }
{
    let mut jobs = jobs;
    let mut dones = dones;
    while let Some(job) = jobs.pop() {
        keep_done(job, &mut dones);
    }
    turned(dones)
}
