//! The plan of the practice agency.
ghost use Rattle.std.specs.Prelude.{◌≡◌, IfOk};
ghost use Rattle.agency_rules.specs.Judging.{verdict_for};
ghost use Rattle.agency_rules.specs.Plans.{fate_at};

use pacing::FIRST_WAIT;
use ports::NoMemory;
use series::NumSerie;
use std::alloc::Global;
use std::marker::Model;

/// What the agency says of a record apart from its register's rules, with its code: from 1 to 65535 in a script that was read.
#[derive(Clone, Copy, Debug, PartialEq, Eq)]
pub enum Verdict {
    /// It is refused.
    Vet(u16),
    /// It is accepted with errors.
    Warn(u16),
}

/// The verdict on the `n`-th record of an invoice that reaches the agency, counted from 1. In a script that was read `n` is at
/// most 1000, and never 0.
#[derive(Clone, Copy, Debug, PartialEq, Eq)]
pub struct PlannedVerdict {
    pub num: NumSerie,
    pub n: u32,
    pub verdict: Verdict,
}

/// What befalls a call to the agency. A consultation fails under every fate but `Again`.
#[derive(Clone, Copy, Debug, PartialEq, Eq)]
pub enum Fate {
    /// It does not arrive.
    Lost,
    /// It arrives, and its answer is lost.
    Taken,
    /// It arrives, and is given the reply before it once more: one without lines where there is none. Where that reply names its
    /// very batch, the call fails.
    Stale,
    /// It arrives and is answered, and all batches handed over before it arrive once more, in front of it.
    Again,
    /// It fails, and arrives this many calls later, with 0 at the next one. In a script that was read these are 1 to 1000.
    Late(u32),
}

/// The fate of a call, counted from 1. In a script that was read `call` is at most 1,000,000, and never 0.
#[derive(Clone, Copy, Debug, PartialEq, Eq)]
pub struct PlannedFate {
    pub call: u32,
    pub fate: Fate,
}

/// The verdicts of a plan. Of two for one invoice and count the first holds; in a script that was read there are no two.
#[derive(Drop)]
pub struct Verdicts {
    list: Vec<PlannedVerdict>,
}

impl Model for Verdicts {
    ghost use Rattle.std.specs.Prelude.{List};
    ghost use Rattle.agency_rules.specs.declared.plans.PlannedVerdict.{PlannedVerdict};

    ghost Value = { List PlannedVerdict };

    ghost view = { λ v. v.list.items };
}

impl Verdicts {
    /// The list of these verdicts.
    pub fn of(list: Vec<PlannedVerdict>) -> Verdicts
        ensures { result ≡ list.items }
    {
        Verdicts { list }
    }

    /// The verdicts, in their order.
    pub fn as_slice(&self) -> &[PlannedVerdict]
        ensures { result.now ≡ self.now }
    {
        &self.list
    }

    /// The same verdicts, in memory of their own.
    pub fn copied(&self, alloc: Global) -> Result<Verdicts, NoMemory>
        ensures { IfOk result (λ verdicts. verdicts ≡ self.now) }
    {
        Ok(Verdicts {
            list: Vec::from_slice(alloc, &self.list)?,
        })
    }

    /// The verdict on the n-th record of a number, where one is planned.
    pub fn for_record(&self, num: &NumSerie, n: u32) -> Option<Verdict>
        ensures { result ≡ verdict_for self.now num.now n }
    {
        self.list
            .iter()
            .find(|v| v.num.as_slice() == num.as_slice() && v.n == n)
            .map(|v| v.verdict)
    }
}

/// The fates of a plan. Of two for one call the first holds; in a script that was read there are no two.
#[derive(Drop)]
pub struct Fates {
    list: Vec<PlannedFate>,
}

impl Model for Fates {
    ghost use Rattle.std.specs.Prelude.{List};
    ghost use Rattle.agency_rules.specs.declared.plans.PlannedFate.{PlannedFate};

    ghost Value = { List PlannedFate };

    ghost view = { λ f. f.list.items };
}

impl Fates {
    /// The list of these fates.
    pub fn of(list: Vec<PlannedFate>) -> Fates
        ensures { result ≡ list.items }
    {
        Fates { list }
    }

    /// The fates, in their order.
    pub fn as_slice(&self) -> &[PlannedFate]
        ensures { result.now ≡ self.now }
    {
        &self.list
    }

    /// The same fates, in memory of their own.
    pub fn copied(&self, alloc: Global) -> Result<Fates, NoMemory>
        ensures { IfOk result (λ fates. fates ≡ self.now) }
    {
        Ok(Fates {
            list: Vec::from_slice(alloc, &self.list)?,
        })
    }

    /// The fate of the call of this number, where one is planned.
    pub fn at(&self, call: u64) -> Option<Fate>
        ensures { result ≡ fate_at self.now call }
    {
        self.list
            .iter()
            .find(|f| u64::from(f.call) == call)
            .map(|f| f.fate)
    }
}

/// What the practice agency does apart from its rules. `wait` is the pause in seconds that it asks for after each answer: at most
/// 86400 in a script that was read.
#[derive(Drop)]
pub struct Plan {
    pub verdicts: Verdicts,
    pub wait: u32,
    pub fates: Fates,
}

impl Plan {
    ghost use Rattle.agency_rules.specs.Plans.{plain};

    /// The plan without a line: no verdict, a pause of a minute, and each call arrives and is answered.
    pub fn plain(alloc: Global) -> Plan
        ensures { result ≡ plain }
    {
        Plan {
            verdicts: Verdicts::of(Vec::new(alloc)),
            wait: FIRST_WAIT,
            fates: Fates::of(Vec::new(alloc)),
        }
    }

    /// The same plan, in memory of its own.
    pub fn copied(&self, alloc: Global) -> Result<Plan, NoMemory>
        ensures { IfOk result (λ plan. plan ≡ self.now) }
    {
        Ok(Plan {
            verdicts: self.verdicts.copied(alloc)?,
            wait: self.wait,
            fates: self.fates.copied(alloc)?,
        })
    }
}
