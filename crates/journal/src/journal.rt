//! The journal: a file of frames, and where the next one goes.
ghost use Rattle.std.specs.Prelude.{◌≡◌, ◌<◌, ◌≤◌, ◌+◌, ◌^◌, ◌++◌, ◌∷◌, [], ◌↔◌, List, ℕ, length, IfOk, IfErr, OnOk, OnErr};
ghost use Rattle.std.specs.Prelude.{IsErrOf, IsSome, IsTrue, None, Some};
ghost use Rattle.ports.specs.Causes.{Rose};
ghost use Rattle.chain_disk.specs.OnDisk.{LeavesOnly, LeavesNow, IsSettled, moment};
ghost use Rattle.frames.specs.Frames.{IsBody, frame};
ghost use Rattle.record_fields.specs.declared.versions.Version.{Version as AnyVersion};
ghost use Rattle.journal.specs.File.{IsAt, IsAtSome, IsFile, IsBeforeOrAfter, IsNotBegun, IsNotBegunOrEmpty, NeverLosesFrames};
ghost use Rattle.journal.specs.Written.{AppendsFrom, with_frame, empty_file, CreationTakes};

use crate::HEADER;
use crate::commit::commit;
use crate::creation::set_up;
use chain_disk::Disk;
use frames::{FrameBuf, frame_bytes};
use parties::Nif;
use record_fields::Version;

/// Why a body could not be appended.
#[derive(Clone, Copy, Debug, PartialEq, Eq)]
pub enum JournalFault {
    /// The disk failed in this call. The frame may be on the disk or not, so the journal is stopped.
    DiskFault,
    /// The disk failed in an earlier append, at this count of its faults. Nothing was done.
    Stopped { faults: u64 },
}

/// A begun file whose next frame goes to its closing gate.
#[derive(Drop)]
pub struct Journal<D: Disk> {
    disk: D,
    end: u64,
    stopped: Option<u64>,
    // The frame that was written last.
    frame: FrameBuf,
    /// Where it isn't stopped, its file is a chain with nothing pending, which closes at its end.
    pub ghost ready: { stopped ≡ None → IsTrue D.tells → IsAtSome end (D.on_disk disk) },
}

/// The disk of a journal that could not be created.
#[derive(Drop)]
pub struct Lost<D: Disk> {
    pub disk: D,
}

impl<D: Disk> Journal<D> {
    ghost use Rattle.journal.specs.declared.TheConstants.{HEADER};
    ghost use Rattle.journal.specs.Journal.{disk_of, end_of, stopped_of};

    /// A journal of this issuer and version on a file that isn't begun. First a closed byte 0 is made sure of, then
    /// the header is written after it, and then byte 0 is opened, with a sync after each.
    pub fn create(disk: D, issuer: &Nif, version: Version) -> Result<Journal<D>, Lost<D>>
        requires { IsTrue D.tells → IsNotBegun (D.on_disk disk).content × IsSettled (D.on_disk disk) }

        ensures empty { IfOk result (λ journal. IsTrue D.tells →
            IsAt version issuer.now [] (end_of journal) (D.on_disk (disk_of journal))) }
        ensures every_crash { IfOk result (λ journal. IsTrue D.tells →
            LeavesNow (D.on_disk (disk_of journal)) (IsFile version issuer.now [])) }
        //= A file that is begun and empty has exactly its twenty bytes.
        //= No body: it is one write of them, as `append`'s
        ensures content { IfOk result (λ journal. IsTrue D.tells →
            (D.on_disk (disk_of journal)).content ≡ empty_file version issuer.now) }
        //= A creation takes six moments of the disk where at most one byte was there, else four.
        //= No body: it is `commit`, as `append`
        ensures moments { IfOk result (λ journal. IsTrue D.tells →
            CreationTakes (D.on_disk disk) (D.on_disk (disk_of journal))) }
        ensures place { IfOk result (λ journal. end_of journal ≡ HEADER) }
        ensures going_on { IfOk result (λ journal. stopped_of journal ≡ None) }

        // A crash at any moment of the call leaves a file that isn't begun, or is begun and empty.
        //= A crash in a creation leaves a file that isn't begun, or is begun and empty.
        //= No body: it is `commit`, as `append`
        ensures any_moment { IfOk result (λ journal. IsTrue D.tells →
            LeavesOnly (D.on_disk disk) (D.on_disk (disk_of journal)) (IsNotBegunOrEmpty version issuer.now)) }
        ensures any_moment_err { IfErr result (λ lost. IsTrue D.tells →
            LeavesOnly (D.on_disk disk) (D.on_disk lost.disk) (IsNotBegunOrEmpty version issuer.now)) }
        ensures content_err { IfErr result (λ lost. IsTrue D.tells →
            IsNotBegunOrEmpty version issuer.now (D.on_disk lost.disk).content) }

        // What the disk had made sure of at any moment of the call stays.
        ensures never_loses { IfOk result (λ journal. IsTrue D.tells →
            NeverLosesFrames (D.on_disk disk) (D.on_disk (disk_of journal))) }
        //= A creation that fails loses nothing that was made sure of.
        ensures never_loses_err { IfErr result (λ lost. IsTrue D.tells →
            NeverLosesFrames (D.on_disk disk) (D.on_disk lost.disk)) }

        ensures lost { IfErr result (λ lost. Rose (D.faults disk) (D.faults lost.disk)) }
        ensures later { IfOk result (λ journal. D.faults disk ≤ D.faults (disk_of journal)) }
        ensures later_err { IfErr result (λ lost. D.faults disk ≤ D.faults lost.disk) }
    {
        let mut disk = disk;
        match set_up(&mut disk, issuer, version) {
            Ok(()) => Ok(Journal {
                disk,
                end: HEADER as u64,
                stopped: None,
                frame: FrameBuf::new(),
            }),
            Err(_) => Err(Lost { disk }),
        }
    }

    /// The journal of a begun file, with nothing pending, whose closing gate is at this place.
    pub fn at(disk: D, end: u64) -> Journal<D>
        requires { IsTrue D.tells → IsAtSome end (D.on_disk disk) }
        ensures parts { (disk_of result ≡ disk) × (end_of result ≡ end) × (stopped_of result ≡ None) }
    {
        Journal {
            disk,
            end,
            stopped: None,
            frame: FrameBuf::new(),
        }
    }

    /// The disk that it writes.
    pub fn into_disk(self) -> D
        ensures { result ≡ disk_of self }
    {
        let Journal {
            disk,
            end: _,
            stopped: _,
            frame: _,
        } = self;
        disk
    }

    /// The place of its closing gate.
    pub fn end(&self) -> u64
        ensures { result ≡ end_of self.now }
    {
        self.end
    }

    /// The disk's count of faults when an append failed. None where the journal goes on.
    pub fn stopped(&self) -> Option<u64>
        ensures { result ≡ stopped_of self.now }
    {
        self.stopped
    }

    /// Adds a frame of this body. At `Ok` it is acknowledged, and the answer is the place of the new
    /// closing gate. The frame is written after the closing gate, and then the gate is opened, with a
    /// sync after each.
    pub fn append(&mut self, body: &[u8]) -> Result<u64, JournalFault>
        requires size { IsBody body.now }
        requires place { end_of self.old < 2 ^ 63 }

        // After Ok every crash leaves this body too.
        ensures acknowledged { OnOk result (IsTrue D.tells → (version : AnyVersion) (issuer : List ℕ) (bodies : List (List ℕ)) →
            IsAt version issuer bodies (end_of self.old) (D.on_disk (disk_of self.old)) →
            IsAt version issuer (bodies ++ body.now ∷ []) (end_of self.new) (D.on_disk (disk_of self.new))) }
        //= After an append that is Ok every crash leaves its body too.
        ensures every_crash { OnOk result (IsTrue D.tells → (version : AnyVersion) (issuer : List ℕ) (bodies : List (List ℕ)) →
            IsAt version issuer bodies (end_of self.old) (D.on_disk (disk_of self.old)) →
            LeavesNow (D.on_disk (disk_of self.new)) (IsFile version issuer (bodies ++ body.now ∷ []))) }
        //= After an append that is Ok the file is the one before up to its gate, the gate as 1, the frame with its
        //= closing 0, and what stood after that.
        ensures content { OnOk result (IsTrue D.tells → (D.on_disk (disk_of self.new)).content
            ≡ with_frame (D.on_disk (disk_of self.old)).content (end_of self.old) body.now) }
        // Two writes, with a sync after each.
        //= An append is two writes, with a sync after each.
        ensures moments { OnOk result (IsTrue D.tells →
            moment (D.on_disk (disk_of self.new)) ≡ moment (D.on_disk (disk_of self.old)) + 4) }
        ensures answer { IfOk result (λ at. at ≡ end_of self.new) }
        //= An append's answer is the place of the new gate, with `answer`.
        //= No body: it is the sum of the lengths, which the next append needs
        ensures place { OnOk result (end_of self.new ≡ end_of self.old + 5 + length body.now) }
        ensures going_on { OnOk result ((stopped_of self.old ≡ None) × (stopped_of self.new ≡ None)) }

        // A crash at any moment of the call leaves the bodies from before it, or those and this one.
        //= A crash at any moment of an append leaves the bodies from before it, or those and this one.
        ensures any_moment { stopped_of self.old ≡ None → IsTrue D.tells →
            (version : AnyVersion) (issuer : List ℕ) (bodies : List (List ℕ)) →
            IsAt version issuer bodies (end_of self.old) (D.on_disk (disk_of self.old)) →
            LeavesOnly (D.on_disk (disk_of self.old)) (D.on_disk (disk_of self.new))
            (IsBeforeOrAfter version issuer bodies body.now) }

        // What was made sure of at one moment of the call is there after every crash at a later one.
        //= What was made sure of at any moment of an append stays at each later one.
        ensures never_loses { stopped_of self.old ≡ None → IsTrue D.tells →
            (version : AnyVersion) (issuer : List ℕ) (bodies : List (List ℕ)) →
            IsAt version issuer bodies (end_of self.old) (D.on_disk (disk_of self.old)) →
            NeverLosesFrames (D.on_disk (disk_of self.old)) (D.on_disk (disk_of self.new)) }

        // The bytes before the closing gate stay, in the file and in each that a crash leaves.
        //= Whatever an append answers, the bytes before the gate stay, in the file and in each that a crash leaves.
        ensures appended { stopped_of self.old ≡ None → IsTrue D.tells →
            AppendsFrom (end_of self.old) (D.on_disk (disk_of self.old)) (D.on_disk (disk_of self.new)) }

        // A fault of the disk stops the journal for good. From then on no call of the disk is made.
        ensures fault { IsErrOf result JournalFault.DiskFault →
            (stopped_of self.old ≡ None) × Rose (D.faults (disk_of self.old)) (D.faults (disk_of self.new)) }
        //= A fault of the disk stops the journal for good, at its count.
        ensures stops { IsErrOf result JournalFault.DiskFault →
            stopped_of self.new ≡ Some (D.faults (disk_of self.new)) }
        //= From a fault on, and only then, every append answers `Stopped` with that count.
        //= No body: it is one look at the count ahead of all calls
        ensures stopped { (faults : ℕ) →
            IsErrOf result (JournalFault.Stopped faults) ↔ (stopped_of self.old ≡ Some faults) }
        //= Once stopped a journal calls no disk.
        //= No body: it is one look at the count ahead of all calls
        ensures untouched { IsSome (stopped_of self.old) → self.new ≡ self.old }
        ensures end_err { OnErr result (end_of self.new ≡ end_of self.old) }
        ensures later { D.faults (disk_of self.old) ≤ D.faults (disk_of self.new) }
    {
        if let Some(faults) = self.stopped {
            return Err(JournalFault::Stopped { faults });
        }
        frame_bytes(body, &mut self.frame);
        match commit(&mut self.disk, self.end, self.frame.as_slice()) {
            Ok(()) => {
                self.end += body.len() as u64 + 5;
                Ok(self.end)
            }
            Err(_) => {
                self.stopped = Some(self.disk.faults());
                Err(JournalFault::DiskFault)
            }
        }
    }
}
