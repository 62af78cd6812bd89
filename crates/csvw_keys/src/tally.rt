//! How often each key occurs.
//!
//! Making room for a key looks it up and counts it at once. The count from before is kept beside it. The counts are
//! then *ahead* by that key. Adding the row drops the count from before. If another book had no memory, the next call
//! falls back to that count. So a key is looked up once.
ghost use Rattle.std.specs.Prelude.{◌≡◌, ◌++◌, ◌∷◌, [], List, None, Some, IfOk, OnErr, OnOk};
ghost use Rattle.std.specs.BTreeMap.{BTreeMap, get};
ghost use Rattle.csvw_keys.specs.Tallies.{IsAheadAt, IsCounted, IsRaised, Tallies, tally_times, times_at};

use crate::times::Times;
use csvw_text::Copied;
use std::alloc::{AllocError, Global};
use std::cmp::Ordering;
use std::collections::BTreeMap;

/// How often each key occurs. A key is counted in two steps. Only the first step needs memory and looks the key up.
#[derive(Drop)]
pub(crate) struct Tally<K: Ord> {
    /// How often each key occurs. A missing key never occurs.
    counts: BTreeMap<K, Times>,
    /// A key that the counts already include though it is not counted yet, and how often it occurred before it.
    ahead: Option<(K, Times)>,
}

/// Counts a key once more, and returns how often it occurred before. It returns `AllocError` if there is no memory.
fn raise<K: Ord + Drop>(counts: &mut BTreeMap<K, Times>, key: K) -> Result<Times, AllocError>
    ensures before { IfOk result (λ before. before ≡ times_at K.cmp counts.old key) }
    ensures raised { IfOk result (λ before. IsRaised K.cmp counts.old counts.new key before) }
    ensures err { OnErr result ((q : K) → get K.cmp counts.new q ≡ get K.cmp counts.old q) }
{
    let times = counts.entry(key)?.or_insert(Times::Never);
    let before = *times;
    *times = before.more();
    Ok(before)
}

impl<K: Ord + Copied + Drop> Tally<K> {
    /// Makes a tally without keys. It takes no memory.
    pub(crate) fn new(alloc: Global) -> Tally<K>
        ensures { Tallies K.cmp result.ahead result.counts [] }
    {
        Tally {
            counts: BTreeMap::new(alloc),
            ahead: None,
        }
    }

    /// Returns how often a key occurs.
    pub(crate) fn times(&self, key: &K) -> Times
        ensures { result ≡ tally_times K.cmp self.now.ahead self.now.counts key.now }
    {
        if let Some((ahead, before)) = &self.ahead {
            if let Ordering::Equal = ahead.cmp(key) {
                return *before;
            }
        }
        match self.counts.get(key) {
            Some(times) => *times,
            None => Times::Never,
        }
    }

    /// Makes room for a key, or returns `AllocError` if there is no memory. It changes no count that is reported.
    pub(crate) fn make_room(&mut self, alloc: Global, key: K) -> Result<(), AllocError>
        ensures ahead { OnOk result (IsAheadAt self.new.ahead key) }
        ensures keeps { (keys : List K) → Tallies K.cmp self.old.ahead self.old.counts keys → Tallies K.cmp self.new.ahead self.new.counts keys }
    {
        self.fall_back();
        let copy = key.copied(alloc)?;
        let before = raise(&mut self.counts, copy)?;
        self.ahead = Some((key, before));
        Ok(())
    }

    /// Takes the key that the counts are ahead by out of the counts.
    fn fall_back(&mut self)
        ensures ahead { self.new.ahead ≡ None }
        ensures keeps { (keys : List K) → Tallies K.cmp self.old.ahead self.old.counts keys → Tallies K.cmp self.new.ahead self.new.counts keys }
    {
        let Some((key, before)) = self.ahead.take() else {
            return;
        };
        if let Some(times) = self.counts.get_mut(&key) {
            *times = before;
        }
    }

    /// Counts the key that there is room for, and returns how often it occurred before.
    pub(crate) fn count(&mut self) -> Times
        ensures { (key : K) → IsAheadAt self.old.ahead key → (keys : List K) → Tallies K.cmp self.old.ahead self.old.counts keys
            → IsCounted K.cmp result self.new.ahead self.new.counts keys key }
    {
        match self.ahead.take() {
            Some((_, before)) => before,
            None => Times::Never,
        }
    }
}
