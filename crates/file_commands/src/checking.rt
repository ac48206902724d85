//! The command `check`: answers scanned links.
ghost use Rattle.std.specs.Prelude.{◌≡◌};
ghost use Rattle.std.specs.Int.{IsInRange};
ghost use Rattle.chain_disk.specs.Disks.{this_disk};
ghost use Rattle.ports.specs.Sinks.{this_sink};
ghost use Rattle.ports.specs.Sources.{this_source};
ghost use Rattle.report.specs.Status.{status_of};
ghost use Rattle.link_check.specs.Checking.Chain.{begun, not_begun};
ghost use Rattle.link_check.specs.declared.all.TheConstants.{MAX_WORKERS};
ghost use Rattle.file_commands.specs.Checking.{AnswersFrom, AnswersPrinted, AreTold, CheckEnds};
ghost use Rattle.file_commands.specs.Lines.{lines_of};

use crate::answering::answered;
use crate::input::{InputFault, read_input};
use crate::lines::read_lines;
use crate::output::print;
use chain_disk::Disk;
use link_check::{CheckedList, check_unbegun, checks_text};
use ports::{NoMemory, Sink, Source};
use report::{Detail, Ended};
use shop_core::{FileRead, ReadFault, State, a_broken_file_is_damaged, read_file};
use std::alloc::Global;
use std::thread::Threads;

/// Reads the source to its end, each line as a scanned link, and prints what each is answered, a line each, in their order. The
/// lines are worked in this many pieces at the same time. The source comes first, then the file, which is only read; where it
/// isn't begun, each readable link is unknown.
pub fn check_cmd<S: Source, K: Sink, D: Disk, R: Threads + Sync>(
    rt: &R,
    alloc: Global,
    workers: u8,
    source: &mut S,
    sink: &mut K,
    disk: D,
) -> (Ended, D)
    requires { IsInRange 1 MAX_WORKERS workers }
    ensures status { result.0.status ≡ status_of result.0.detail }
    //= `check` holds the lines of all that was read against what the file stands for, or against nothing where it
    //= isn't begun, and prints their answers, one each in order; 12 or 4 come without a look at the file.
    ensures ends { CheckEnds (this_source S.left S.faults source.old source.new)
        (this_sink K.taken K.faults sink.old sink.new)
        (this_disk D.tells D.on_disk D.faults disk result.1) result.0.detail }
    ensures same { D.on_disk result.1 ≡ D.on_disk disk }
{
    let mut disk = disk;
    let detail = check_source(rt, alloc, workers, source, sink, &mut disk);
    (Ended::of(detail), disk)
}

// Reads the source, and holds its lines against the file.
fn check_source<S: Source, K: Sink, D: Disk, R: Threads + Sync>(
    rt: &R,
    alloc: Global,
    workers: u8,
    source: &mut S,
    sink: &mut K,
    disk: &mut D,
) -> Detail
    requires { IsInRange 1 MAX_WORKERS workers }
    ensures ends { CheckEnds (this_source S.left S.faults source.old source.new)
        (this_sink K.taken K.faults sink.old sink.new)
        (this_disk D.tells D.on_disk D.faults disk.old disk.new) result }
    ensures same { D.on_disk disk.new ≡ D.on_disk disk.old }
{
    match read_input(alloc, source) {
        Ok(bytes) => check_bytes(rt, alloc, workers, &bytes, sink, disk),
        Err(InputFault::ReadFault) => Detail::ReadFault,
        Err(InputFault::TooBig) => Detail::TooBig,
        Err(InputFault::NoMemory) => Detail::NoMemory,
    }
}

// Holds the lines of these bytes against the file, and prints their answers.
fn check_bytes<K: Sink, D: Disk, R: Threads + Sync>(
    rt: &R,
    alloc: Global,
    workers: u8,
    bytes: &[u8],
    sink: &mut K,
    disk: &mut D,
) -> Detail
    requires { IsInRange 1 MAX_WORKERS workers }
    ensures ends { AnswersFrom bytes.now (this_sink K.taken K.faults sink.old sink.new)
        (this_disk D.tells D.on_disk D.faults disk.old disk.new) result }
    ensures same { D.on_disk disk.new ≡ D.on_disk disk.old }
{
    a_broken_file_is_damaged();
    match read_file(alloc, disk) {
        Ok(FileRead::Sound { state, .. }) => check_in(rt, alloc, workers, bytes, &state, sink),
        Ok(FileRead::NotBegun) => check_without(alloc, bytes, sink),
        Ok(FileRead::Broken { at, .. }) => Detail::Damaged { at },
        Err(ReadFault::DiskFault) => Detail::DiskFault,
        Err(ReadFault::NoMemory) => Detail::NoMemory,
    }
}

// Holds the lines of these bytes against the history, and prints their answers.
fn check_in<K: Sink, R: Threads + Sync>(
    rt: &R,
    alloc: Global,
    workers: u8,
    bytes: &[u8],
    state: &State,
    sink: &mut K,
) -> Detail
    requires { IsInRange 1 MAX_WORKERS workers }
    ensures { AnswersPrinted (begun state.now.issuer state.now.entries) (lines_of bytes.now)
        (this_sink K.taken K.faults sink.old sink.new) result }
{
    match answered(rt, alloc, workers, bytes, state) {
        Ok(text) => print(text.as_slice(), Detail::Done, sink),
        Err(NoMemory) => Detail::NoMemory,
    }
}

// The same where no history is begun.
fn check_without<K: Sink>(alloc: Global, bytes: &[u8], sink: &mut K) -> Detail
    ensures { AnswersPrinted not_begun (lines_of bytes.now) (this_sink K.taken K.faults sink.old sink.new) result }
{
    let lines = match read_lines(alloc, bytes) {
        Ok(lines) => lines,
        Err(NoMemory) => return Detail::NoMemory,
    };
    match check_unbegun(alloc, &lines) {
        Ok(answers) => print_answers(alloc, &answers, sink),
        Err(NoMemory) => Detail::NoMemory,
    }
}

fn print_answers<K: Sink>(alloc: Global, answers: &CheckedList, sink: &mut K) -> Detail
    ensures { AreTold answers.now (this_sink K.taken K.faults sink.old sink.new) result }
{
    match checks_text(alloc, answers) {
        Ok(text) => print(text.as_slice(), Detail::Done, sink),
        Err(NoMemory) => Detail::NoMemory,
    }
}
