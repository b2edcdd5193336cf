//! A value that one thread replaces and many copy, with no lock and no wait: neither waits for the other.
//!
//! It stands in one of a few slots, each with a count of its readers. A copy is made while the reader is counted; a
//! new value goes into a slot that no reader is in, and then its index is told.
#![tactic(auto)]

ghost use Rattle.std.specs.Prelude.{◌≡◌, ◌<◌, ◌%◌, All, IfErr, IfOk, IfSome, true};
ghost use Rattle.counted_slot.specs.Counting.{readers};

use counted_slot::{Counted, FREE, Fits, MOST_READERS, ONE_READER, PRESENT, TAKEN};
use std::alloc::{AllocError, Global};
use std::sync::atomic::{AtomicU64, Ordering};

/// How often a reader looks where changes come so fast that it is overtaken each time.
const TRIES: u32 = 1_000_000;

/// A value that can be copied for a reader.
pub trait Shown: Fits + Drop {
    /// A copy that fits where this does. Err: memory, or a count of owners is full.
    fn share(&self) -> Result<Self, AllocError>
        ensures { (tag : Self.Tag) → Self.fits tag self.now → IfOk result (λ v. Self.fits tag v) };
}

/// A value, in one of a few slots. The tag says which values fit.
#[derive(Drop)]
pub struct Shelf<V: Shown>
where
    V::Tag: Drop,
{
    pub tag: V::Tag,
    slots: Vec<Counted<Option<V>>>,
    shown: AtomicU64,
    ghost alike: { All (λ t. t ≡ tag) slots.items },
}

fn state_of(word: u64) -> u64
    ensures { result ≡ word % 4 }
{
    word % 4
}

fn reader_count(word: u64) -> u64
    ensures { result ≡ readers word }
{
    word % 0x1_0000_0000 / 4
}

// Whether nobody is in the slot of this word.
fn is_unused(word: u64) -> bool
    ensures { result ≡ true → (word % 4 < 3) × (readers word ≡ 0) }
{
    state_of(word) != TAKEN && reader_count(word) == 0
}

// A copy of what stands in the slot, made while `shown` has this index. None: nothing does, or it was replaced; Err:
// there is no memory.
fn copy_in<V: Shown>(
    slot: &Counted<Option<V>>,
    shown: &AtomicU64,
    at: u64,
) -> Option<Result<V, AllocError>>
    ensures { IfSome result (λ r. IfOk r (λ v. V.fits slot.now v)) }
{
    let word = slot.load();
    if state_of(word) != PRESENT || reader_count(word) >= MOST_READERS {
        return None;
    }
    let (found, claim) = slot.turn(word, word + ONE_READER);
    if found != word {
        claim.done();
        return None;
    }
    let copy = match claim.get() {
        Some(value) if shown.load(Ordering::SeqCst) == at => Some(value.share()),
        _ => None,
    };
    claim.leave();
    copy
}

// Fills a slot that no reader is in, and gives what was there. Err: a reader is.
fn fill<V: Shown>(slot: &Counted<Option<V>>, value: V) -> Result<Option<V>, V>
    requires { V.fits slot.now value }
    ensures { IfErr result (λ v. v ≡ value) }
{
    let word = slot.load();
    if !is_unused(word) {
        return Err(value);
    }
    let (found, claim) = slot.turn(word, TAKEN);
    if found != word {
        claim.done();
        return Err(value);
    }
    Ok(claim.put(Some(value), PRESENT))
}

// Empties a slot that no reader is in, and says whether it is empty now.
fn empty<V: Shown>(slot: &Counted<Option<V>>) -> bool {
    let word = slot.load();
    if state_of(word) == FREE {
        return true;
    }
    if !is_unused(word) {
        return false;
    }
    let (found, claim) = slot.turn(word, TAKEN);
    if found != word {
        claim.done();
        return false;
    }
    drop(claim.put(None, FREE));
    true
}

// So many empty slots.
fn empty_slots<V: Shown>(
    alloc: Global,
    tag: &V::Tag,
    count: usize,
) -> Result<Vec<Counted<Option<V>>>, AllocError>
    ensures { IfOk result (λ v. All (λ t. t ≡ tag.now) v.items) }
{
    let mut slots = Vec::new(alloc);
    for _ in 0..count {
        if slots.push(Counted::new(None, tag)).is_err() {
            return Err(AllocError);
        }
    }
    Ok(slots)
}

impl<V: Shown> Shelf<V>
where
    V::Tag: Drop,
{
    /// An empty one, of so many slots. With two slots more than there are readers, one is always free for a new value.
    /// Err: memory.
    pub fn new(alloc: Global, tag: V::Tag, count: usize) -> Result<Shelf<V>, AllocError>
        ensures { IfOk result (λ s. s.tag ≡ tag) }
    {
        let slots = empty_slots(alloc, &tag, count)?;
        Ok(Shelf {
            tag,
            slots,
            shown: AtomicU64::new(0),
        })
    }

    /// A copy of what is shown. It enters no lock, and waits for no one. None: nothing is shown, or values came faster
    /// than it could look; Err: there is no memory.
    pub fn look(&self) -> Option<Result<V, AllocError>>
        ensures { IfSome result (λ r. IfOk r (λ v. V.fits self.now.tag v)) }
    {
        for _ in 0..TRIES {
            let at = self.shown.load(Ordering::SeqCst);
            let Some(slot) = self.slots.get(at as usize) else {
                return None;
            };
            if let Some(copy) = copy_in(slot, &self.shown, at) {
                return Some(copy);
            }
        }
        None
    }

    /// Shows a value in place of the one in the slot of this index, and gives the index of its own. It takes no memory,
    /// and waits for no one. Err: a reader is in each of the other slots; the value comes back.
    pub fn show(&self, current: usize, value: V) -> Result<usize, V>
        requires { V.fits self.now.tag value }
        ensures { IfErr result (λ v. v ≡ value) }
    {
        let mut value = value;
        for at in 0..self.slots.len() {
            if at == current {
                continue;
            }
            match fill(&self.slots[at], value) {
                Ok(_old) => {
                    self.shown.store(at as u64, Ordering::SeqCst);
                    return Ok(at);
                }
                Err(back) => value = back,
            }
        }
        Err(value)
    }

    /// Drops the values in all slots but the one of this index, and says whether they are empty now: not where a reader
    /// is in one.
    pub fn clear(&self, current: usize) -> bool {
        let mut is_clear = true;
        for at in 0..self.slots.len() {
            if at != current && !empty(&self.slots[at]) {
                is_clear = false;
            }
        }
        is_clear
    }
}
