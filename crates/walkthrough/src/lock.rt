//! `ya_lock`: two threads change a value in turn, each its own part, and its end is known.
ghost use Rattle.std.specs.Prelude.{◌≡◌, refl, ◌+◌, ◌^◌, ◌<◌, IfOk};
ghost use Rattle.walkthrough.specs.Tally.{part, KeepsPart, KeepsOthers, IsFreshPass};
ghost use Rattle.walkthrough.specs.inside.TallyLaws.{keeps_after};

use std::alloc::Global;
use std::sync::Wait;
use std::thread;
use std::thread::Threads;
use ya_lock::{Kept, NoMemory, Pass, TreeLock};

/// The counts of two places.
#[derive(Drop)]
pub struct Tally {
    /// The count of place 0.
    pub first: u64,
    /// The count of place 1.
    pub second: u64,
}

/// A place changes only its own part, so a pass knows its part as long as it is outside.
impl Kept for Tally {
    ghost since = { λ place a b. KeepsPart place a b };

    ghost done = { λ place a b. KeepsOthers place a b };

    ghost since_same = { λ _ _. refl };

    ghost done_same = { λ _ _ _ _. refl };

    ghost since_done = { λ place other a b c apart since done. keeps_after place other a b c apart since done };
}

impl Tally {
    /// Adds 1 to the place's count.
    fn add(&mut self, place: usize)
        requires place { place < 2 }
        requires room { part place self.old + 1 < 2 ^ 64 }
        ensures own { part place self.new ≡ part place self.old + 1 }
        ensures others { KeepsOthers place self.old self.new }
    {
        if place == 0 {
            self.first += 1;
        } else {
            self.second += 1;
        }
    }
}

/// Enters `times` times, and adds 1 each time.
fn count<R: Wait>(rt: &R, lock: &TreeLock<Tally, 1>, pass: Pass<Tally>, times: u32) -> Pass<Tally>
    requires lock { pass.lock ≡ lock.now }
    requires place { pass.place < 2 }
    requires fresh { part pass.place pass.seen ≡ 0 }
    ensures lock { result.lock ≡ lock.now }
    ensures place { result.place ≡ pass.place }
    ensures counted { part pass.place result.seen ≡ times }
{
    let mut pass = pass;
    for _passage in 0..times {
        let mut guard = lock.enter(rt, pass);
        let place = guard.place();
        guard.get_mut().add(place);
        pass = lock.leave(guard);
    }
    pass
}

/// Returns a lock with two places, and the pass of each.
fn lock_of_two(alloc: Global) -> Result<(TreeLock<Tally, 1>, Pass<Tally>, Pass<Tally>), NoMemory>
    ensures { IfOk result (λ made. IsFreshPass made.0 0 made.1 × IsFreshPass made.0 1 made.2) }
{
    let start = Tally {
        first: 0,
        second: 0,
    };
    let Ok((lock, mut passes)) = TreeLock::<Tally, 1>::new(alloc, start) else {
        return Err(NoMemory);
    };
    let Some(second) = passes.pop() else {
        return Err(NoMemory);
    };
    let Some(first) = passes.pop() else {
        return Err(NoMemory);
    };
    Ok((lock, first, second))
}

/// Returns the counts of two threads after each has entered `times` times.
pub fn count_both<R: Threads + Wait + Sync>(
    rt: &R,
    alloc: Global,
    times: u32,
) -> Result<Tally, NoMemory>
    ensures { IfOk result (λ tally. (tally.first ≡ times) × (tally.second ≡ times)) }
{
    let (lock, first, second) = lock_of_two(alloc)?;
    let shared = &lock;
    let (first, second) = thread::join(
        rt,
        move || count(rt, shared, first, times),
        move || count(rt, shared, second, times),
    );
    let guard = lock.enter(rt, first);
    // Consumes the other pass: its count is in the tally that the guard has.
    let guard = lock.confirm(guard, second);
    Ok(lock.close(guard))
}
