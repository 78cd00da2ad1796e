//! The construction of a lock: first its tree and its table, then the passes of its places from the seat that made it.
ghost use Rattle.std.specs.Prelude.{◌≡◌, ℕ, ◌+◌, ◌^◌, ◌≤◌, [], vec_capacity, IfOk};
ghost use Rattle.ya_core.specs.ArbitrationTree.{HasShape};
ghost use Rattle.ya_lock.specs.declared.rule.View.TheVariants.{Making, HandingOut};
ghost use Rattle.ya_lock.specs.Rule.{making_index};
ghost use Rattle.ya_lock.specs.inside.Lock.{IsLockTable};
ghost use Rattle.ya_lock.specs.Lock.{ArePassesInOrder};

use crate::ghost_value::GhostValue;
use crate::kept::Kept;
use crate::pass::Pass;
use crate::rule::{LockSeat, LockTable, SPACING};
use crate::step_effects::{BeginMaking, HandOut, HandOutLast};
use crate::throttle::Contention;
use crate::tree_lock::TreeLock;
use atomic_table::Table;
use std::alloc::Global;
use ya_core::{NoMemory, Shape};

impl<V: Kept + Drop, const L: u32> TreeLock<V, L> {
    /// Returns the tree of the lock.
    #[inline(always)]
    pub(crate) fn shape() -> Shape
        requires { HasShape L }
        ensures { result ≡ L }
    {
        let Some(shape) = Shape::new(L) else {
            unreachable!()
        };
        shape
    }

    /// Returns a table whose words are 0 and whose slot is empty, with the seat that is to make the passes. The making
    /// word has the index `making`, and the bells come after it.
    pub(crate) fn new_table(
        alloc: Global,
        making: usize,
    ) -> Result<(LockTable<V>, LockSeat<V>), NoMemory>
        requires levels { HasShape L }
        requires making { making ≡ making_index L }
        ensures table { IfOk result
            (λ made. IsLockTable L made.0.shared.key made.0.shared.table_id) }
        ensures lock { IfOk result (λ made. made.1.table_id ≡ made.0.shared.table_id) }
        ensures maker { IfOk result (λ made. made.1.me ≡ (Making, [])) }
    {
        let bells = Self::shape().places();
        let Ok(words) = Vec::from_elem(alloc, 0u64, making + SPACING * (1 + bells)) else {
            return Err(NoMemory);
        };
        let Ok((table, _unused)) = Table::vacant(alloc, words.as_slice(), 1, &L) else {
            return Err(NoMemory);
        };
        let (found, maker) = table.shared.swap_new_seat::<BeginMaking>(making, 1);
        if found != 0 {
            return Err(NoMemory);
        }
        Ok((table, maker))
    }

    /// Returns the passes of all places in order, from the seat of the maker, which has given the value home.
    pub(crate) fn make_passes(
        &self,
        mut maker: LockSeat<V>,
        seen: GhostValue<V>,
        mut passes: Vec<Pass<V>>,
    ) -> Vec<Pass<V>>
        requires lock { maker.table_id ≡ self.now }
        requires maker { maker.me ≡ (HandingOut 0 seen.value, []) }
        requires passes { passes.items ≡ [] }
        requires room { 2 ^ L ≤ vec_capacity passes }
        ensures { ArePassesInOrder self.now L seen.value result.items }
    {
        let shared = &self.table.shared;
        let last = Self::shape().places() - 1;
        for place in 0..last {
            let seat = shared.split_seat::<HandOut>(&mut maker);
            passes.push_reserved(Pass {
                seat,
                place,
                remote: 0,
                seen: seen.again(),
                crowd: Contention::NONE,
            });
        }
        shared.load::<HandOutLast>(&mut maker, 0);
        passes.push_reserved(Pass {
            seat: maker,
            place: last,
            remote: 0,
            seen,
            crowd: Contention::NONE,
        });
        passes
    }
}
