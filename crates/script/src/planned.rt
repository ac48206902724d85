//! What the lines plan for the practice agency. A table for each list tells whether a line stands above.
ghost use Rattle.std.specs.Prelude.{◌≡◌, ◌++◌, ◌∷◌, [], OnErr, OnOk, is_some};
ghost use Rattle.agency_rules.specs.Judging.{verdict_for};
ghost use Rattle.agency_rules.specs.Plans.{fate_at};

use agency_rules::{Fates, PlannedFate, PlannedVerdict, Verdicts};
use ports::NoMemory;
use series::NumSerie;
use std::alloc::Global;
use std::collections::HashSet;
use std::marker::Model;

/// The verdicts of the lines so far. Contracts see their list.
#[derive(Drop)]
pub struct VerdictLines {
    list: Vec<PlannedVerdict>,
    records: HashSet<(NumSerie, u32)>,
}

impl Model for VerdictLines {
    ghost use Rattle.std.specs.Prelude.{List};
    ghost use Rattle.agency_rules.specs.declared.plans.PlannedVerdict.{PlannedVerdict};
    ghost use Rattle.script.specs.Tables.{AreRecordsOf};

    ghost Value = { List PlannedVerdict };

    ghost view = { λ v. v.list.items };

    ghost invariant = { λ v. AreRecordsOf v.list.items v.records };
}

impl VerdictLines {
    /// None.
    pub fn nothing(alloc: Global) -> VerdictLines
        ensures { result ≡ [] }
    {
        VerdictLines {
            list: Vec::new(alloc),
            records: HashSet::new(alloc),
        }
    }

    /// One of them is on the n-th record of this number.
    pub fn has(&self, num: NumSerie, n: u32) -> bool
        ensures { result ≡ is_some (verdict_for self.now num n) }
    {
        self.records.contains(&(num, n))
    }

    /// One more.
    pub fn add(&mut self, verdict: PlannedVerdict) -> Result<(), NoMemory>
        ensures ok { OnOk result (self.new ≡ self.old ++ verdict ∷ []) }
        ensures err { OnErr result (self.new ≡ self.old) }
    {
        self.list.reserve(1)?;
        self.records.insert((verdict.num, verdict.n))?;
        self.list.push_reserved(verdict);
        Ok(())
    }

    /// The verdicts of a plan.
    pub fn into_verdicts(self) -> Verdicts
        ensures { result ≡ self }
    {
        Verdicts::of(self.list)
    }
}

/// The fates of the lines so far. Contracts see their list.
#[derive(Drop)]
pub struct FateLines {
    list: Vec<PlannedFate>,
    calls: HashSet<u32>,
}

impl Model for FateLines {
    ghost use Rattle.std.specs.Prelude.{List};
    ghost use Rattle.agency_rules.specs.declared.plans.PlannedFate.{PlannedFate};
    ghost use Rattle.script.specs.Tables.{AreCallsOf};

    ghost Value = { List PlannedFate };

    ghost view = { λ f. f.list.items };

    ghost invariant = { λ f. AreCallsOf f.list.items f.calls };
}

impl FateLines {
    /// None.
    pub fn nothing(alloc: Global) -> FateLines
        ensures { result ≡ [] }
    {
        FateLines {
            list: Vec::new(alloc),
            calls: HashSet::new(alloc),
        }
    }

    /// One of them is that of the call of this number.
    pub fn has(&self, call: u32) -> bool
        ensures { result ≡ is_some (fate_at self.now call) }
    {
        self.calls.contains(&call)
    }

    /// One more.
    pub fn add(&mut self, fate: PlannedFate) -> Result<(), NoMemory>
        ensures ok { OnOk result (self.new ≡ self.old ++ fate ∷ []) }
        ensures err { OnErr result (self.new ≡ self.old) }
    {
        self.list.reserve(1)?;
        self.calls.insert(fate.call)?;
        self.list.push_reserved(fate);
        Ok(())
    }

    /// The fates of a plan.
    pub fn into_fates(self) -> Fates
        ensures { result ≡ self }
    {
        Fates::of(self.list)
    }
}
