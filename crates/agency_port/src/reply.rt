//! The reply to a submission.
ghost use Rattle.std.specs.Prelude.{◌≡◌, length, IfOk};

use crate::ReplyLines;
use batches::HuellaList;
use ports::NoMemory;
use std::alloc::Global;
use std::marker::Model;

/// The Huellas that it answers for, a line for each, and the seconds to wait before the next submission.
#[derive(Drop)]
pub struct Reply {
    huellas: HuellaList,
    lines: ReplyLines,
    wait: u32,
}

impl Model for Reply {
    ghost use Rattle.std.specs.Prelude.{◌≡◌, length};
    ghost use Rattle.agency_port.specs.Reply.{Replied};

    ghost Value = { Replied };

    ghost view = { λ r. record { huellas = r.huellas; lines = r.lines; wait = r.wait } };

    ghost invariant = { λ r. length r.lines ≡ length r.huellas };
}

impl Reply {
    /// The reply with these lines, as many as Huellas.
    pub fn of(huellas: HuellaList, lines: ReplyLines, wait: u32) -> Reply
        requires { length lines ≡ length huellas }
        ensures { result ≡ record { huellas = huellas; lines = lines; wait = wait } }
    {
        Reply {
            huellas,
            lines,
            wait,
        }
    }

    /// The Huellas that it answers for, in order.
    pub fn huellas(&self) -> &HuellaList
        ensures { result.now ≡ self.now.huellas }
    {
        &self.huellas
    }

    /// The line of each Huella, in order.
    pub fn lines(&self) -> &ReplyLines
        ensures value { result.now ≡ self.now.lines }
        ensures matched { length result.now ≡ length self.now.huellas }
    {
        &self.lines
    }

    /// The seconds to wait before the next submission.
    pub fn wait(&self) -> u32
        ensures { result ≡ self.now.wait }
    {
        self.wait
    }

    /// The same reply, in memory of its own.
    pub fn copied(&self, alloc: Global) -> Result<Reply, NoMemory>
        ensures { IfOk result (λ reply. reply ≡ self.now) }
    {
        Ok(Reply {
            huellas: self.huellas.copied(alloc)?,
            lines: self.lines.copied(alloc)?,
            wait: self.wait,
        })
    }
}
