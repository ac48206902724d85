//! How each invoice stands: the places of its last records of several sorts.
ghost use Rattle.std.specs.Prelude.{◌≡◌, ℕ, ◌++◌, ◌∷◌, ◌<◌, ◌&&◌, ◌==◌, [], List, None, Some, OnOk, OnErr, bytes_eq, true, false};
ghost use Rattle.std.specs.Prelude.{if◌then◌else◌, is_some, length, option_map, slice_get};
ghost use Rattle.shop_core.specs.Tables.ByNumber.{accepted, after, changed, has, list_of, listed_at, nothing, other_at, settled};
ghost use Rattle.shop_core.specs.Tables.ByNumber.{standing_at};
ghost use Rattle.shop_core.specs.Tables.Spots as spots;
ghost use Rattle.shop_core.specs.declared.tables.spots.Spot.{Spot as AnySpot};

use crate::tables::spots::{Spot, spot_of};
use indexmap::IndexMap;
use ports::NoMemory;
use series::{NumSerie, SeriesName};
use std::alloc::Global;

/// Places of an invoice's records, 0 where there is none.
#[derive(Clone, Copy, Debug, PartialEq, Eq)]
pub(crate) struct Standing {
    /// Its last record.
    pub last: u32,
    /// Its last record whose line is noted and accepts it.
    pub settled: u32,
    /// Its last alta.
    pub alta: u32,
}

const NOTHING: Standing = Standing {
    last: 0,
    settled: 0,
    alta: 0,
};

/// The standing of each number, that of nothing where it was entered alone. The numbers of a series stand in a list of
/// its own while they are entered in their order; the others stand in another list.
#[derive(Drop)]
pub(crate) struct ByNumber {
    alloc: Global,
    lists: IndexMap<SeriesName, Vec<Standing>>,
    others: IndexMap<NumSerie, Standing>,
}

/// What happens to an invoice.
#[derive(Clone, Copy)]
enum Change {
    /// One more record, at a place.
    Recorded { place: u32, is_alta: bool },
    /// The record at a place is accepted by its line.
    Accepted { place: u32 },
}

impl Standing {
    fn after(self, place: u32, is_alta: bool) -> Standing
        ensures { result ≡ after self place is_alta }
    {
        Standing {
            last: place,
            settled: self.settled,
            alta: if is_alta { place } else { self.alta },
        }
    }

    /// The place of the last accepted record, with this many lines noted.
    pub fn accepted(self, noted: u32) -> u32
        ensures { result ≡ accepted self noted }
    {
        if noted < self.last {
            self.last
        } else {
            self.settled
        }
    }

    fn settled_at(self, place: u32) -> Standing
        ensures { result ≡ settled self place }
    {
        Standing {
            last: self.last,
            settled: place,
            alta: self.alta,
        }
    }

    fn changed(self, change: Change) -> Standing
        ensures { result ≡ changed change self }
    {
        match change {
            Change::Recorded { place, is_alta } => self.after(place, is_alta),
            Change::Accepted { place } => self.settled_at(place),
        }
    }
}

impl ByNumber {
    pub fn new(alloc: Global) -> ByNumber
        ensures { (n : List ℕ) → standing_at result n ≡ nothing }
    {
        ByNumber {
            alloc,
            lists: IndexMap::new(alloc),
            others: IndexMap::new(alloc),
        }
    }

    pub fn at(&self, num: &NumSerie) -> Standing
        ensures { result ≡ standing_at self.now num.now }
    {
        match self.other(num) {
            Some(standing) => standing,
            None => self.listed(num).unwrap_or(NOTHING),
        }
    }

    // What stands in no list: seldom anything.
    fn other(&self, num: &NumSerie) -> Option<Standing>
        ensures { result ≡ other_at self.now num.now }
    {
        if self.others.is_empty() {
            return None;
        }
        self.others.get(num).copied()
    }

    fn listed(&self, num: &NumSerie) -> Option<Standing>
        ensures { result ≡ listed_at self.now (spots.spot_of num.now) }
    {
        match spot_of(num) {
            None => None,
            Some(spot) => self.at_spot(&spot),
        }
    }

    fn at_spot(&self, spot: &Spot) -> Option<Standing>
        ensures { result ≡ listed_at self.now (Some spot.now) }
    {
        match self.lists.get(&spot.series) {
            None => None,
            Some(list) => list.get(spot.index).copied(),
        }
    }

    // How many numbers of a series stand in its list.
    fn len_of(&self, series: &SeriesName) -> usize
        ensures { result ≡ length (list_of self.now series.now) }
    {
        match self.lists.get(series) {
            None => 0,
            Some(list) => list.len(),
        }
    }

    /// Enters a key, where it isn't there yet. Keys that are there stay, and no standing changes.
    pub fn enter(&mut self, num: &NumSerie) -> Result<(), NoMemory>
        ensures same { (n : List ℕ) → standing_at self.new n ≡ standing_at self.old n }
        ensures stays { (n : List ℕ) → has self.old n ≡ true → has self.new n ≡ true }
        ensures ok { OnOk result (has self.new num.now ≡ true) }
    {
        if self.other(num).is_some() {
            return Ok(());
        }
        match spot_of(num) {
            None => self.enter_other(num),
            Some(spot) => self.enter_at(num, &spot),
        }
    }

    fn enter_other(&mut self, num: &NumSerie) -> Result<(), NoMemory>
        requires absent { has self.old num.now ≡ false }
        ensures same { (n : List ℕ) → standing_at self.new n ≡ standing_at self.old n }
        ensures stays { (n : List ℕ) → has self.old n ≡ true → has self.new n ≡ true }
        ensures ok { OnOk result (has self.new num.now ≡ true) }
    {
        self.others.insert(*num, NOTHING)?;
        Ok(())
    }

    fn enter_at(&mut self, num: &NumSerie, spot: &Spot) -> Result<(), NoMemory>
        requires spot { spots.spot_of num.now ≡ Some spot.now }
        requires absent { other_at self.old num.now ≡ None }
        ensures same { (n : List ℕ) → standing_at self.new n ≡ standing_at self.old n }
        ensures stays { (n : List ℕ) → has self.old n ≡ true → has self.new n ≡ true }
        ensures ok { OnOk result (has self.new num.now ≡ true) }
    {
        let len = self.len_of(&spot.series);
        if spot.index < len {
            return Ok(());
        }
        if len < spot.index {
            return self.enter_other(num);
        }
        self.append(&spot.series)
    }

    // One more number at the end of a series' list.
    fn append(&mut self, series: &SeriesName) -> Result<(), NoMemory>
        ensures others { self.new.others ≡ self.old.others }
        ensures ok { OnOk result ((s : List ℕ) → list_of self.new s
            ≡ (if bytes_eq series.now s then list_of self.old s ++ nothing ∷ [] else list_of self.old s)) }
        ensures err { OnErr result ((s : List ℕ) → list_of self.new s ≡ list_of self.old s) }
    {
        match self.lists.get_mut(series) {
            None => self.open(series),
            Some(list) => push(list),
        }
    }

    // A list for a series that has none.
    fn open(&mut self, series: &SeriesName) -> Result<(), NoMemory>
        requires { list_of self.old series.now ≡ [] }
        ensures others { self.new.others ≡ self.old.others }
        ensures ok { OnOk result ((s : List ℕ) → list_of self.new s
            ≡ (if bytes_eq series.now s then nothing ∷ [] else list_of self.old s)) }
        ensures err { OnErr result ((s : List ℕ) → list_of self.new s ≡ list_of self.old s) }
    {
        let mut list = Vec::new(self.alloc);
        list.push(NOTHING)?;
        self.lists.insert(*series, list)?;
        Ok(())
    }

    /// One more record of a number that was entered.
    pub fn write(&mut self, num: &NumSerie, place: u32, is_alta: bool)
        requires { has self.old num.now ≡ true }
        ensures { (n : List ℕ) → standing_at self.new n
            ≡ (if bytes_eq num.now n then after (standing_at self.old n) place is_alta else standing_at self.old n) }
    {
        self.change(num, Change::Recorded { place, is_alta });
    }

    /// The record at this place is accepted by its line.
    pub fn settle(&mut self, num: &NumSerie, place: u32)
        requires { has self.old num.now ≡ true }
        ensures { (n : List ℕ) → standing_at self.new n
            ≡ (if bytes_eq num.now n then settled (standing_at self.old n) place else standing_at self.old n) }
    {
        self.change(num, Change::Accepted { place });
    }

    fn change(&mut self, num: &NumSerie, change: Change)
        requires { has self.old num.now ≡ true }
        ensures { (n : List ℕ) → standing_at self.new n
            ≡ (if bytes_eq num.now n then changed change (standing_at self.old n) else standing_at self.old n) }
    {
        if self.other(num).is_some() {
            return self.change_other(num, change);
        }
        match spot_of(num) {
            None => unreachable!(),
            Some(spot) => self.change_at(&spot, change),
        }
    }

    fn change_other(&mut self, num: &NumSerie, change: Change)
        requires { is_some (other_at self.old num.now) ≡ true }
        ensures lists { self.new.lists ≡ self.old.lists }
        ensures others { (n : List ℕ) → other_at self.new n
            ≡ (if bytes_eq num.now n then option_map (changed change) (other_at self.old n) else other_at self.old n) }
    {
        match self.others.get_mut(num) {
            None => unreachable!(),
            Some(standing) => *standing = standing.changed(change),
        }
    }

    fn change_at(&mut self, spot: &Spot, change: Change)
        requires { is_some (listed_at self.old (Some spot.now)) ≡ true }
        ensures others { self.new.others ≡ self.old.others }
        ensures lists { (s : AnySpot) → listed_at self.new (Some s)
            ≡ (if bytes_eq spot.now.series s.series && spot.now.index == s.index
            then option_map (changed change) (listed_at self.old (Some s)) else listed_at self.old (Some s)) }
    {
        match self.lists.get_mut(&spot.series) {
            None => unreachable!(),
            Some(list) => change_in(list, spot.index, change),
        }
    }
}

fn push(list: &mut Vec<Standing>) -> Result<(), NoMemory>
    ensures ok { OnOk result (list.new.items ≡ list.old.items ++ nothing ∷ []) }
    ensures err { OnErr result (list.new.items ≡ list.old.items) }
{
    list.push(NOTHING)?;
    Ok(())
}

fn change_in(list: &mut Vec<Standing>, index: usize, change: Change)
    requires { index < length list.old.items }
    ensures { (k : ℕ) → slice_get list.new.items k
        ≡ (if index == k then option_map (changed change) (slice_get list.old.items k) else slice_get list.old.items k) }
{
    let standing = list[index].changed(change);
    list[index] = standing;
}
