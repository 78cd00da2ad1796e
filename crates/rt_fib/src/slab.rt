//! Lists whose places are used again. Each place has the epoch in which it was last marked as used. Whatever is in use has at least
//! the epoch that the round began with, so a place with a lower one is free.
ghost use Rattle.std.specs.Prelude.{◌≡◌, ◌↔◌, ℕ, ◌+◌, ◌<◌, ◌≤◌, ◌^◌, IfOk, IfSome, IsTrue, OnErr, [], length, get_or, slice_set, take};
ghost use Rattle.rt_fib.specs.inside.Slab.{with_value, begun, AreCleared, Fills, Has, IsBack, IsNumberOf, Keeps, Places};

use crate::bounds::Epoch;
use crate::slabs::GROUP_FLAG;
use rt_rib::Refused;
use std::alloc::Allocator;
use std::marker::Model;

/// Says how many places a search for a free one looks at.
const MOST_TRIES: u32 = 8;

/// Compares values of a slab.
pub(crate) trait Same: Copy {
    /// Returns true if the other value is the same.
    fn is_same(&self, other: &Self) -> bool
        ensures { IsTrue result ↔ (self.now ≡ other.now) };
}

/// Holds values, and the epoch of each place. The epochs are a separate list: so a look-up reads only values, and marking reads 4
/// bytes of each place.
#[derive(Drop)]
pub(crate) struct Slab<T: Copy, A: Allocator + Copy> {
    values: Vec<T, A>,
    epochs: Vec<u32, A>,
    /// The free places that the last change filled. If it is refused, they become free again.
    undo_log: Vec<u32, A>,
    /// The place at which the search for a free one goes on. No clause mentions it.
    next: usize,
}

impl<T: Copy, A: Allocator + Copy> Model for Slab<T, A> {
    ghost use Rattle.std.specs.Prelude.{◌≡◌, length};
    ghost use Rattle.rt_fib.specs.inside.Slab.{SlabState};

    ghost Value = { SlabState T };

    ghost view = { λ s. record { places = record { values = s.values.items; epochs = s.epochs.items }; undo_log = s.undo_log.items } };

    ghost invariant = { λ s. length s.epochs.items ≡ length s.values.items };
}

impl<T: Copy, A: Allocator + Copy> Slab<T, A> {
    /// Makes a slab with no places.
    pub(crate) fn empty(alloc: A) -> Slab<T, A>
        ensures { result.places.values ≡ [] }
    {
        Slab {
            values: Vec::new(alloc),
            epochs: Vec::new(alloc),
            undo_log: Vec::new(alloc),
            next: 0,
        }
    }

    /// Copies it into memory of the allocator, without the log.
    pub(crate) fn copy(&self, alloc: A) -> Result<Slab<T, A>, Refused>
        ensures { IfOk result (λ copy. copy.places ≡ self.now.places) }
    {
        let values = Vec::from_slice(alloc, &self.values)?;
        let epochs = Vec::from_slice(alloc, &self.epochs)?;
        Ok(Slab {
            values,
            epochs,
            undo_log: Vec::new(alloc),
            next: self.next,
        })
    }

    /// Returns how many places there are.
    pub(crate) fn len(&self) -> usize
        ensures { result ≡ length self.now.places.values }
    {
        self.values.len()
    }

    /// Returns the values of all places.
    pub(crate) fn values(&self) -> &[T]
        ensures { result.now ≡ self.now.places.values }
    {
        self.values.as_slice()
    }

    /// Returns the value at the place.
    pub(crate) fn get(&self, n: u32) -> &T
        requires { n < length self.now.places.values }
        ensures { result.now ≡ get_or self.now.places.values n result.now }
    {
        &self.values[n as usize]
    }

    /// Gets room for this number of further places, if the allocator has it.
    pub(crate) fn reserve(&mut self, count: usize)
        ensures { self.new ≡ self.old }
    {
        if self.values.reserve_exact(count).is_ok() && self.epochs.reserve_exact(count).is_err() {
            self.values.shrink_to(0);
        }
    }

    /// Gives back room, if it has over twice what it needs with `count` further places. A slab that only changes has no more, so it
    /// isn't copied.
    pub(crate) fn trim(&mut self, count: usize)
        ensures { self.new ≡ self.old }
    {
        trim_list(&mut self.values, count);
        trim_list(&mut self.epochs, count);
    }

    /// Returns how many bytes it takes, if each place takes `size` of them.
    pub(crate) fn bytes(&self, size: usize) -> usize {
        let log = self.undo_log.capacity().saturating_mul(4);
        self.values
            .capacity()
            .saturating_mul(size)
            .saturating_add(log)
    }

    /// Returns the value at the place, if it is in use since this epoch.
    pub(crate) fn used(&self, epoch: Epoch, n: u32) -> Option<&T>
        ensures { IfSome result (λ value. IsNumberOf self.now.places epoch.number n value.now) }
    {
        let i = n as usize;
        if n >= GROUP_FLAG || i >= self.values.len() || self.epochs[i] < epoch.number {
            return None;
        }
        Some(&self.values[i])
    }

    /// Puts the value into a free place, or at the end of the list. The place is in use in the next epoch too.
    #[tactic(auto, using(crate::proofs::Placing::fills_same))]
    pub(crate) fn put(&mut self, epoch: Epoch, value: T) -> Result<u32, Refused>
        ensures fills { Fills epoch.number self.old self.new }
        ensures number { IfOk result (λ n. IsNumberOf self.new.places (epoch.number + 1) n value) }
        ensures within { IfOk result (λ n. n ≤ length self.old.places.values) }
        ensures put { IfOk result (λ n. self.new.places.values ≡ with_value self.old.places.values n value) }
        ensures kept { OnErr result (self.new.places.values ≡ self.old.places.values) }
    {
        let count = self.values.len();
        if let Some(n) = free_place(self.epochs.as_slice(), &mut self.next, epoch) {
            self.undo_log.push(n)?;
            self.values[n as usize] = value;
            self.epochs[n as usize] = epoch.number + 1;
            return Ok(n);
        }
        if count >= GROUP_FLAG as usize {
            return Err(Refused);
        }
        self.epochs.reserve(1)?;
        self.values.push(value)?;
        self.epochs.push(epoch.number + 1)?;
        Ok(count as u32)
    }

    /// Replaces the value at the place.
    pub(crate) fn replace(&mut self, n: u32, value: T)
        requires { n < length self.old.places.values }
        ensures values { self.new.places.values ≡ slice_set self.old.places.values n value }
        ensures epochs { self.new.places.epochs ≡ self.old.places.epochs }
    {
        self.values[n as usize] = value;
    }

    /// Marks the place: if it is in use in this epoch, it is in use in the next one too.
    pub(crate) fn mark_used(&mut self, epoch: Epoch, n: u32)
        ensures keeps { Keeps epoch.number self.old.places self.new.places }
        ensures fills { epoch.number ≤ get_or self.old.places.epochs n 0 → Fills epoch.number self.old self.new }
        ensures marked { (t : ℕ) → (value : T) → Has self.old.places t n value → Has self.new.places (epoch.number + 1) n value }
        ensures values { self.new.places.values ≡ self.old.places.values }
    {
        let i = n as usize;
        if i >= self.epochs.len() || self.epochs[i] > epoch.number {
            return;
        }
        self.epochs[i] = epoch.number + 1;
    }

    /// Begins a change. Returns how many places there are.
    pub(crate) fn begin(&mut self) -> usize
        ensures count { result ≡ length self.old.places.values }
        ensures state { self.new ≡ begun self.old.places }
    {
        self.undo_log.clear();
        self.values.len()
    }

    /// Returns how many places were filled since a change began with this number of places.
    pub(crate) fn filled_since(&self, count: usize) -> usize {
        let appended = self.values.len().saturating_sub(count);
        self.undo_log.len().saturating_add(appended)
    }

    /// Undoes a refused change that began with this number of places: the free places that it filled are free again, and the slab
    /// keeps only its first places.
    pub(crate) fn roll_back(&mut self, count: usize)
        ensures back { (epoch : ℕ) → (start : Places T) → count ≡ length start.values → Fills epoch (begun start) self.old → IsBack epoch start self.new.places }
        ensures values { self.new.places.values ≡ take count self.old.places.values }
    {
        clear_each(self.epochs.as_mut_slice(), self.undo_log.as_slice());
        self.values.truncate(count);
        self.epochs.truncate(count);
    }
}

impl<T: Same, A: Allocator + Copy> Slab<T, A> {
    /// Returns true if this is the place of that value: then it is in use from the next epoch on.
    pub(crate) fn reuse_if_same(&mut self, epoch: Epoch, n: u32, value: &T) -> bool
        ensures fills { Fills epoch.number self.old self.new }
        ensures number { IsTrue result → IsNumberOf self.new.places (epoch.number + 1) n value.now }
        ensures values { self.new.places.values ≡ self.old.places.values }
    {
        let Some(used) = self.used(epoch, n) else {
            return false;
        };
        if !used.is_same(value) {
            return false;
        }
        self.mark_used(epoch, n);
        true
    }
}

/// Gives back room, if the list has over twice what it needs with `count` further elements.
pub(crate) fn trim_list<T, A: Allocator + Copy>(list: &mut Vec<T, A>, count: usize)
    ensures { list.new.items ≡ list.old.items }
{
    let enough = list.len().saturating_add(count);
    if list.capacity() > enough.saturating_mul(2) {
        list.shrink_to(enough);
    }
}

/// Returns a free place, if one is near.
fn free_place(epochs: &[u32], next: &mut usize, epoch: Epoch) -> Option<u32>
    ensures short { IfSome result (λ n. n < 2 ^ 31) }
    ensures within { IfSome result (λ n. n < length epochs.now) }
    ensures unused { IfSome result (λ n. get_or epochs.now n 0 < epoch.number) }
{
    if epoch.number == 0 {
        return None;
    }
    'places: for _ in 0..MOST_TRIES {
        let n = *next;
        if n >= epochs.len() || n >= GROUP_FLAG as usize {
            *next = 0;
            return None;
        }
        *next = n + 1;
        if epochs[n] < epoch.number {
            return Some(n as u32);
        }
    }
    None
}

/// Writes 0 at each of the places.
fn clear_each(epochs: &mut [u32], log: &[u32])
    ensures { AreCleared epochs.old epochs.new log.now (length log.now) }
{
    'clear: for k in 0..log.len() {
        let n = log[k] as usize;
        if n < epochs.len() {
            epochs[n] = 0;
        }
    }
}
