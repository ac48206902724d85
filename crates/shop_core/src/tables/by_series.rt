//! How many sales each series has.
ghost use Rattle.std.specs.Prelude.{◌≡◌, ℕ, ◌+◌, ◌<◌, List, OnOk, IsTrue, bytes_eq, true, ◌&&◌, if◌then◌else◌};
ghost use Rattle.record_fields.specs.Records.{is_sale, num_of};
ghost use Rattle.series.specs.Numbers.{is_series, series_of};
ghost use Rattle.shop_core.specs.Tables.BySeries.{count_at, has};
ghost use Rattle.shop_core.specs.declared.limits.TheConstants.{MAX_RECORDS};

use indexmap::IndexMap;
use ports::NoMemory;
use record_fields::Record;
use series::SeriesName;
use std::alloc::Global;

/// The sales of each series, 0 where it was entered alone.
#[derive(Drop)]
pub(crate) struct BySeries {
    counts: IndexMap<SeriesName, u32>,
}

impl BySeries {
    pub fn new(alloc: Global) -> BySeries
        ensures { (s : List ℕ) → count_at result s ≡ 0 }
    {
        BySeries {
            counts: IndexMap::new(alloc),
        }
    }

    pub fn at(&self, series: &SeriesName) -> u32
        ensures { result ≡ count_at self.now series.now }
    {
        self.counts.get(series).copied().unwrap_or(0)
    }

    /// Enters the series of a sale, where it isn't there yet. Keys that are there stay, and no count changes.
    pub fn enter_for(&mut self, body: &Record) -> Result<(), NoMemory>
        ensures same { (s : List ℕ) → count_at self.new s ≡ count_at self.old s }
        ensures stays { (s : List ℕ) → has self.old s ≡ true → has self.new s ≡ true }
        ensures ok { OnOk result (is_sale body.now ≡ true → IsTrue (is_series (series_of (num_of body.now))) →
            has self.new (series_of (num_of body.now)) ≡ true) }
    {
        if !body.is_sale() {
            return Ok(());
        }
        match body.id().num.series_name() {
            None => Ok(()),
            Some(series) => self.enter(&series),
        }
    }

    fn enter(&mut self, series: &SeriesName) -> Result<(), NoMemory>
        ensures same { (s : List ℕ) → count_at self.new s ≡ count_at self.old s }
        ensures stays { (s : List ℕ) → has self.old s ≡ true → has self.new s ≡ true }
        ensures ok { OnOk result (has self.new series.now ≡ true) }
    {
        if !self.counts.contains_key(series) {
            self.counts.insert(*series, 0)?;
        }
        Ok(())
    }

    /// One more record; where it is a sale, its series was entered.
    pub fn write_for(&mut self, body: &Record)
        requires entered { is_sale body.now ≡ true → has self.old (series_of (num_of body.now)) ≡ true }
        requires named { is_sale body.now ≡ true → IsTrue (is_series (series_of (num_of body.now))) }
        requires few { (s : List ℕ) → count_at self.old s < MAX_RECORDS }
        ensures { (s : List ℕ) → count_at self.new s
            ≡ (if is_sale body.now && bytes_eq (series_of (num_of body.now)) s then count_at self.old s + 1 else count_at self.old
            s) }
    {
        let opens = body.is_sale();
        if !opens {
            return;
        }
        match body.id().num.series_name() {
            None => unreachable!(),
            Some(series) => self.write(&series),
        }
    }

    fn write(&mut self, series: &SeriesName)
        requires entered { has self.old series.now ≡ true }
        requires few { count_at self.old series.now < MAX_RECORDS }
        ensures { (s : List ℕ) → count_at self.new s
            ≡ (if bytes_eq series.now s then count_at self.old s + 1 else count_at self.old s) }
    {
        match self.counts.get_mut(series) {
            None => unreachable!(),
            Some(count) => *count += 1,
        }
    }
}
