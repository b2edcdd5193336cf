ghost use Rattle.std.specs.Prelude.{◌≡◌, ◌<◌, ◌≤◌, ◌+◌, ◌++◌, [], ◌∷◌, Bool, IsTrue, OnOk, None, Some, Option};
ghost use Rattle.std.specs.Prelude.{true, filter, is_some, length, slice_get};
ghost use Rattle.std.specs.Option.{option_flatten};
ghost use Rattle.std.specs.Map.{lookup, remove_entry, set_value};
ghost use Rattle.ordered_table.specs.Table.{Computes, HasFewGaps, at_place, entries, there};
ghost use Rattle.indexmap.specs.IndexMap.{IsUnique, spare};

mod reads;

use indexmap::IndexMap;
use std::alloc::{AllocError, Global};
use std::hash::Hash;
use std::marker::Model;

/// A map with its entries in the order of insertion; contracts see its places ([`Table::places`]) and its free room.
///
/// Iteration goes over the places, of which at most about half are gaps. Inserting a key whose own gap still stands
/// moves all places behind that gap: O(n).
#[derive(Drop)]
pub struct Table<K: Eq + Hash, V> {
    rows: IndexMap<K, Option<V>>,
    // The number of entries: the places that aren't gaps.
    live: usize,
}

impl<K: Eq + Hash, V> Model for Table<K, V> {
    ghost use Rattle.indexmap.specs.IndexMap.{spare};
    ghost use Rattle.ordered_table.specs.Table.{Places, IsKept, places_code};

    ghost Value = { Places K V };

    ghost coded = { places_code K.code V.code };

    ghost view = { λ t. record { places = t.rows.entries; room = spare t.rows } };

    ghost invariant = { λ t. IsKept K.eq t.live t.rows.entries };
}

impl<K: Eq + Hash + Drop, V: Drop> Table<K, V> {
    /// An empty table. It allocates nothing.
    pub fn new(alloc: Global) -> Table<K, V>
        ensures { entries result ≡ [] }
    {
        Table {
            rows: IndexMap::new(alloc),
            live: 0,
        }
    }

    /// Makes room for one more entry, so that the next [`Table::insert`] allocates nothing. Err: out of memory, and the
    /// table is as before.
    pub fn reserve(&mut self) -> Result<(), AllocError>
        ensures places { self.new.places ≡ self.old.places }
        ensures room { OnOk result (0 < self.new.room) }
        ensures kept { self.old.room ≤ self.new.room }
    {
        self.rows.reserve(1)
    }

    /// Appends an entry with a new key; where the key's own gap still stands, the entry has the equal key that stands
    /// there. It needs room ([`Table::reserve`]) and allocates nothing.
    pub fn insert(&mut self, key: K, value: V)
        requires room { 0 < self.old.room }
        requires fresh { lookup (K.eq key) (entries self.old) ≡ None }
        ensures { (k : K) × (K.eq key k ≡ true)
            × (entries self.new ≡ entries self.old ++ (k, value) ∷ []) }
    {
        put_last(&mut self.rows, key, value);
        self.live += 1;
    }

    /// Removes a key's entry, which probably stands at this place ([`Table::find`]), where it is sought first, and
    /// gives its value; the others keep their order. None: no entry has the key. O(1) amortized.
    pub fn take_at(&mut self, place: usize, key: &K) -> Option<V>
        ensures taken { result ≡ lookup (K.eq key.now) (entries self.old) }
        ensures entries { entries self.new ≡ remove_entry (K.eq key.now) (entries self.old) }
        ensures room { self.old.room ≤ self.new.room }
    {
        let value = empty_at(&mut self.rows, place, key)?;
        self.live -= 1;
        sweep(&mut self.rows, self.live);
        Some(value)
    }

    /// Replaces a key's value by what `change` gives for it; the entry keeps its place. Without such an entry nothing
    /// happens. O(1).
    pub fn update<F: FnOnce(V) -> V>(&mut self, key: &K, change: F)
        requires { F.IsAlwaysCallable change }
        ensures entries { (v : V) → lookup (K.eq key.now) (entries self.old) ≡ Some v
            → (w : V) × F.post change v w
            × (entries self.new ≡ set_value (K.eq key.now) (entries self.old) w) }
        ensures absent { lookup (K.eq key.now) (entries self.old) ≡ None
            → entries self.new ≡ entries self.old }
        ensures room { self.new.room ≡ self.old.room }
    {
        if let Some(place) = self.rows.get_mut(key) {
            if let Some(value) = place.take() {
                *place = Some(change(value));
            }
        }
    }

    /// [`Table::update`] of a key that probably stands at this place ([`Table::find`]), where it is sought first. O(1).
    pub fn update_at<F: FnOnce(V) -> V>(&mut self, place: usize, key: &K, change: F)
        requires { F.IsAlwaysCallable change }
        ensures entries { (v : V) → lookup (K.eq key.now) (entries self.old) ≡ Some v
            → (w : V) × F.post change v w
            × (entries self.new ≡ set_value (K.eq key.now) (entries self.old) w) }
        ensures absent { lookup (K.eq key.now) (entries self.old) ≡ None
            → entries self.new ≡ entries self.old }
        ensures room { self.new.room ≡ self.old.room }
    {
        if stands_at(&self.rows, place, key) {
            if let Some(slot) = self.rows.get_index_mut(place) {
                if let Some(value) = slot.take() {
                    *slot = Some(change(value));
                }
            }
        } else {
            self.update(key, change);
        }
    }

    /// Keeps the entries for which `keep` answers true, in their order. O(n).
    pub fn retain<F: Fn(&K, &V) -> bool>(&mut self, keep: F)
        requires { F.IsAlwaysCallable keep }
        ensures { (test : K × V → Bool) → Computes (F.post keep) test
            → entries self.new ≡ filter test (entries self.old) }
    {
        self.rows.retain(
            |key: &K, place: &mut Option<V>| -> bool
                requires { F.IsAlwaysCallable keep }
                ensures { ((test : K × V → Bool) → Computes (F.post keep) test
                    → result ≡ at_place test (key.now, place.old))
                    × (IsTrue result → IsTrue (is_some place.old)) × (place.new ≡ place.old) }
            {
                match place {
                    Some(value) => keep(key, value),
                    None => false,
                }
            },
        );
        self.live = self.rows.len();
    }
}

// Makes a key's place the last, with this value; the key has at most a gap. The key that stands there stays.
fn put_last<K: Eq + Hash + Drop, V: Drop>(rows: &mut IndexMap<K, Option<V>>, key: K, value: V)
    requires room { 0 < spare rows.old }
    requires gap { lookup (K.eq key) (there rows.old.entries) ≡ None }
    ensures last { (k : K) × (K.eq key k ≡ true)
        × (there rows.new.entries ≡ there rows.old.entries ++ (k, value) ∷ []) }
    ensures fits { length (there rows.old.entries) < 18446744073709551615 }
    ensures places { length rows.new.entries ≤ length rows.old.entries + 1 }
    ensures unique { IsUnique K.eq rows.new }
{
    match rows.insert_full(key, Some(value)) {
        Ok((place, Some(_gap))) => {
            let last = rows.len() - 1;
            rows.move_index(place, last);
        }
        Ok((_, None)) => {
            let _places = rows.len(); // It says that one more fits.
        }
        Err(_) => unreachable!(),
    }
}

// Whether a key has this place, be it a gap.
fn stands_at<K: Eq + Hash, V>(rows: &IndexMap<K, Option<V>>, place: usize, key: &K) -> bool
    ensures { result ≡ true → (k : K) × (o : Option V)
        × (slice_get rows.now.entries place ≡ Some (k, o)) × (K.eq key.now k ≡ true) }
{
    match rows.get_index(place) {
        Some((found, _)) => key == found,
        None => false,
    }
}

// Makes a key's place a gap, wherever it is, and gives the value that stood there.
fn empty<K: Eq + Hash, V: Drop>(rows: &mut IndexMap<K, Option<V>>, key: &K) -> Option<V>
    ensures taken { result ≡ option_flatten (lookup (K.eq key.now) rows.old.entries) }
    ensures entries { rows.new.entries ≡ set_value (K.eq key.now) rows.old.entries None }
    ensures room { spare rows.new ≡ spare rows.old }
    ensures unique { IsUnique K.eq rows.new }
{
    match rows.get_mut(key) {
        Some(place) => place.take(),
        None => None,
    }
}

// Makes a key's place a gap and gives the value that stood there. The key probably has this place.
fn empty_at<K: Eq + Hash, V: Drop>(
    rows: &mut IndexMap<K, Option<V>>,
    place: usize,
    key: &K,
) -> Option<V>
    ensures taken { result ≡ option_flatten (lookup (K.eq key.now) rows.old.entries) }
    ensures entries { rows.new.entries ≡ set_value (K.eq key.now) rows.old.entries None }
    ensures room { spare rows.new ≡ spare rows.old }
    ensures unique { IsUnique K.eq rows.new }
{
    if stands_at(rows, place, key) {
        match rows.get_index_mut(place) {
            Some(slot) => slot.take(),
            None => None,
        }
    } else {
        empty(rows, key)
    }
}

// Removes the gaps where more than about half of the places are gaps.
fn sweep<K: Eq + Hash + Drop, V: Drop>(rows: &mut IndexMap<K, Option<V>>, live: usize)
    requires count { live ≡ length (there rows.old.entries) }
    ensures few { HasFewGaps rows.new.entries }
    ensures entries { there rows.new.entries ≡ there rows.old.entries }
    ensures room { spare rows.old ≤ spare rows.new }
    ensures unique { IsUnique K.eq rows.new }
{
    if live < rows.len() / 2 {
        rows.retain(
            |_key: &K, place: &mut Option<V>| -> bool
                ensures { (result ≡ is_some place.old) × (place.new ≡ place.old) }
            { place.is_some() },
        );
    }
}
