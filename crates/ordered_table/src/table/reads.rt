//! Reading a table.
ghost use Rattle.std.specs.Prelude.{◌≡◌, ◌↔◌, ◌<◌, ◌≤◌, ◌+◌, ◌*◌, [], IsTrue, IfSome, IfNone, None, Some};
ghost use Rattle.std.specs.Prelude.{length, is_some, option_map, slice_get};
ghost use Rattle.std.specs.Map.{lookup};
ghost use Rattle.ordered_table.specs.Table.{entries};

use super::Table;
use std::hash::Hash;

impl<K: Eq + Hash + Drop, V: Drop> Table<K, V> {
    /// The number of entries.
    pub fn len(&self) -> usize
        ensures { result ≡ length (entries self.now) }
    {
        self.live
    }

    /// Whether the table has no entry.
    #[must_use]
    pub fn is_empty(&self) -> bool
        ensures { IsTrue result ↔ (entries self.now ≡ []) }
    {
        self.len() == 0
    }

    /// Whether a key has an entry. O(1) on average.
    #[must_use]
    pub fn contains(&self, key: &K) -> bool
        ensures { result ≡ is_some (lookup (K.eq key.now) (entries self.now)) }
    {
        self.get(key).is_some()
    }

    /// A key's value. None: no entry has the key. O(1) on average.
    pub fn get(&self, key: &K) -> Option<&V>
        ensures { option_map (λ v. v.now) result ≡ lookup (K.eq key.now) (entries self.now) }
    {
        match self.rows.get(key) {
            Some(Some(value)) => Some(value),
            Some(None) => None,
            None => None,
        }
    }

    /// A key's place, from 0, and its value, as [`Table::get`]. An insertion, a removal or a sweep may move the place.
    /// O(1) on average.
    pub fn find(&self, key: &K) -> Option<(usize, &V)>
        ensures value { option_map (λ e. e.1.now) result
            ≡ lookup (K.eq key.now) (entries self.now) }
        ensures place { IfSome result (λ e. (k : K)
            × (slice_get self.now.places e.0 ≡ Some (k, Some e.1.now))) }
    {
        match self.rows.get_full(key) {
            Some((place, _, Some(value))) => Some((place, value)),
            Some((_, _, None)) => None,
            None => None,
        }
    }

    /// The number of places, gaps included: what an iteration by [`Table::at`] goes over. There is at most one more
    /// than twice as many as entries.
    pub fn places(&self) -> usize
        ensures places { result ≡ length self.now.places }
        ensures few { result ≤ 2 * length (entries self.now) + 1 }
    {
        self.rows.len()
    }

    /// The entry at a place, from 0. None: the place is a gap, or not below [`Table::places`]. O(1).
    pub fn at(&self, place: usize) -> Option<(&K, &V)>
        ensures entry { IfSome result
            (λ e. slice_get self.now.places place ≡ Some (e.0.now, Some e.1.now)) }
        ensures gap { IfNone result (place < length self.now.places
            → (k : K) × (slice_get self.now.places place ≡ Some (k, None))) }
    {
        match self.rows.get_index(place) {
            Some((key, Some(value))) => Some((key, value)),
            Some((_, None)) => None,
            None => None,
        }
    }
}
