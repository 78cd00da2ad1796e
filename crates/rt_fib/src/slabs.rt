//! The groups and the routes: what the entries lead to.
ghost use Rattle.std.specs.Prelude.{◌≡◌, ℕ, ◌+◌, IfOk};
ghost use Rattle.rt_fib.specs.declared.slabs.Slabs.{Slabs};
ghost use Rattle.rt_fib.specs.inside.Slab.{IsNumberOf};
ghost use Rattle.rt_fib.specs.inside.Entries.{AreBack, FillsBoth, HasBegun, IsCoded, SamePlaces};

use crate::bounds::Epoch;
use crate::routes::{CODE_BYTES, LENGTHS, ROUTE_BYTES};
use crate::slab::{Same, Slab, trim_list};
use rt_cidr::Addr;
use rt_rib::{Refused, Route};
use std::alloc::Allocator;

/// An entry from this number on names a group: this number and the group's place. A lower one is the number of an answer.
pub const GROUP_FLAG: u32 = 1 << 31;

/// The number of addresses of an entry, and of numbers in a group.
pub const GROUP_SIZE: usize = 256;

/// Says how many bytes a group takes, with its epoch.
pub(crate) const GROUP_BYTES: usize = 1032;

/// Says how many bytes all entries take.
pub(crate) const TBL24_BYTES: usize = 1 << 26;

/// Says how many entries, or numbers of a group, are marked for each byte of an answer that is put or of a group that falls out of
/// use.
pub(crate) const PACE: usize = 2;

/// Holds the number of an answer for each of an entry's 256 addresses, and which entry it is: no other one names the group. The
/// literature calls it a `tbl8`.
#[derive(Clone, Copy)]
pub(crate) struct Group {
    pub(crate) numbers: [u32; GROUP_SIZE],
    pub(crate) owner: u32,
}

impl Same for Group {
    fn is_same(&self, other: &Group) -> bool {
        self.owner == other.owner && self.numbers == other.numbers
    }
}

/// Holds how many groups and routes there are.
#[derive(Clone, Copy)]
pub(crate) struct Counts {
    pub(crate) groups: usize,
    pub(crate) routes: usize,
}

impl Counts {
    /// Returns how many bytes they take.
    pub(crate) fn bytes(self) -> usize {
        let groups = self.groups.saturating_mul(GROUP_BYTES);
        groups.saturating_add(self.routes.saturating_mul(ROUTE_BYTES))
    }
}

/// Returns how many bytes two rounds may leave unused, with this number of groups: the bytes for which each entry, and each number of
/// a group, is marked twice.
fn most_waste(groups: usize) -> usize {
    let numbers = groups.saturating_mul(GROUP_SIZE);
    numbers.saturating_add(TBL24_BYTES / 4).saturating_mul(2) / PACE
}

/// Holds the groups and the routes.
#[derive(Drop)]
pub(crate) struct Slabs<A: Allocator + Copy> {
    pub(crate) groups: Slab<Group, A>,
    pub(crate) routes: Slab<Option<Route>, A>,
    /// The code of each answer's next hop. They are a separate list: so 16 of them share a cache line.
    pub(crate) codes: Vec<u32, A>,
    /// The number that an answer got last, by its prefix's length. No clause mentions them.
    pub(crate) last_numbers: [u32; LENGTHS],
}

impl<A: Allocator + Copy> Slabs<A> {
    /// Makes slabs with nothing in them.
    pub(crate) fn empty(alloc: A) -> Slabs<A>
        ensures { IsCoded result }
    {
        Slabs {
            groups: Slab::empty(alloc),
            routes: Slab::empty(alloc),
            codes: Vec::new(alloc),
            last_numbers: [GROUP_FLAG; LENGTHS],
        }
    }

    /// Copies them into memory of the allocator.
    pub(crate) fn copy(&self, alloc: A) -> Result<Slabs<A>, Refused>
        ensures { IfOk result (λ copy. SamePlaces self.now copy) }
    {
        let groups = self.groups.copy(alloc)?;
        let routes = self.routes.copy(alloc)?;
        let codes = Vec::from_slice(alloc, &self.codes)?;
        Ok(Slabs {
            groups,
            routes,
            codes,
            last_numbers: self.last_numbers,
        })
    }

    /// Returns how many groups and routes there are.
    pub(crate) fn counts(&self) -> Counts {
        Counts {
            groups: self.groups.len(),
            routes: self.routes.len(),
        }
    }

    /// Begins a change of the answers from this address on. The number of the answer before it is kept as that which such an answer got
    /// last. Returns how many groups and routes there are.
    pub(crate) fn begin(&mut self, entries: &[u32], addr: Addr) -> Counts
        ensures { HasBegun self.old self.new result }
    {
        self.keep_left_number(entries, addr);
        let groups = self.groups.begin();
        let routes = self.routes.begin();
        Counts { groups, routes }
    }

    /// Undoes a refused change that began with these counts: what was free is free again.
    pub(crate) fn roll_back(&mut self, counts: Counts)
        ensures { (epoch : ℕ) → (start begun : Slabs A) → HasBegun start begun counts → FillsBoth epoch begun self.old → AreBack epoch start self.new }
    {
        self.groups.roll_back(counts.groups);
        self.routes.roll_back(counts.routes);
        self.codes.truncate(counts.routes);
    }

    /// Gets room for the places that two rounds may leave unused, so that no change has to copy a long list. A short list gets room
    /// for as much again as it has.
    pub(crate) fn reserve_waste(&mut self)
        ensures { SamePlaces self.old self.new }
    {
        let Counts { groups, routes } = self.counts();
        let waste = most_waste(groups);
        let more = routes.min(waste / ROUTE_BYTES);
        self.groups.reserve(groups.min(waste / GROUP_BYTES));
        self.routes.reserve(more);
        let _ = self.codes.reserve_exact(more);
    }

    /// Gives back the room that isn't needed.
    pub(crate) fn trim(&mut self)
        ensures { SamePlaces self.old self.new }
    {
        let waste = most_waste(self.groups.len());
        self.groups.trim(waste / GROUP_BYTES);
        self.routes.trim(waste / ROUTE_BYTES);
        trim_list(&mut self.codes, waste / ROUTE_BYTES);
    }

    /// Returns how many bytes they take.
    pub(crate) fn bytes(&self) -> usize {
        let groups = self.groups.bytes(GROUP_BYTES);
        let routes = self.routes.bytes(ROUTE_BYTES - CODE_BYTES);
        let codes = self.codes.capacity().saturating_mul(CODE_BYTES);
        groups.saturating_add(routes).saturating_add(codes)
    }

    /// Returns the number that the entries lead the address to, or a number without an answer.
    pub(crate) fn previous_number(&self, entries: &[u32], addr: Addr) -> u32 {
        let i = addr.0 as usize / GROUP_SIZE;
        if i >= entries.len() {
            return GROUP_FLAG;
        }
        let entry = entries[i];
        if entry < GROUP_FLAG {
            return entry;
        }
        let place = entry - GROUP_FLAG;
        if place as usize >= self.groups.len() {
            return GROUP_FLAG;
        }
        self.groups.get(place).numbers[addr.0 as usize % GROUP_SIZE]
    }

    /// Returns the place of the group: the previous one, if it is that group's, and else one that was free.
    #[tactic(auto, using(crate::proofs::Placing::fills_same))]
    pub(crate) fn place_of_group(
        &mut self,
        epoch: Epoch,
        previous: u32,
        group: Group,
    ) -> Result<u32, Refused>
        ensures routes { self.new.routes ≡ self.old.routes }
        ensures fills { FillsBoth epoch.number self.old self.new }
        ensures group { IfOk result (λ place. IsNumberOf self.new.groups.places (epoch.number + 1) place group) }
    {
        if self.groups.reuse_if_same(epoch, previous, &group) {
            return Ok(previous);
        }
        self.groups.put(epoch, group)
    }
}
