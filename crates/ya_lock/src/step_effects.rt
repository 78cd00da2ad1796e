//! The effect of each step of a seat on its thread's knowledge. Only proofs use these types.
ghost use Rattle.ya_lock.specs.declared.rule.View.TheVariants.{Spent};
ghost use Rattle.ya_lock.specs.StepEffects.{BeginsMaking, TakesSlot, GivesValue, HandsOutLast, ProcessSteps, LearnsSince};
ghost use Rattle.ya_lock.specs.StepEffects.{handed_out, rest_to_hand_out, joined_view, SetsBell, FindsBell, ClearsBell};

use crate::kept::Kept;
use crate::rule::View;
use atomic_table::{Join, Play, Split};

/// The swap in `new` that begins to make the passes.
pub struct BeginMaking;

impl<V> Play<Option<V>, View<V>> for BeginMaking {
    ghost then = { λ step before found after. BeginsMaking found after };
}

/// The maker's load that takes the empty slot.
pub struct TakeSlot;

impl<V> Play<Option<V>, View<V>> for TakeSlot {
    ghost then = { λ step before found after. TakesSlot before.0 after };
}

/// The maker's load that gives the slot home with the value.
pub struct GiveValue;

impl<V> Play<Option<V>, View<V>> for GiveValue {
    ghost then = { λ step before found after. GivesValue before.0 before.1 after };
}

/// The maker's load that hands out the pass of its first place.
pub struct HandOut;

impl<V> Split<View<V>> for HandOut {
    ghost left = { rest_to_hand_out };

    ghost right = { handed_out };
}

/// The maker's load that makes its seat the pass of its last place.
pub struct HandOutLast;

impl<V> Play<Option<V>, View<V>> for HandOutLast {
    ghost then = { λ step before found after. HandsOutLast before.0 before.1 after };
}

/// The due access of a process of a tree of L levels.
pub struct ProcessStep<const L: u32>;

impl<V: Kept, const L: u32> Play<Option<V>, View<V>> for ProcessStep<L> {
    ghost then = { λ step before found after. ProcessSteps V.since L found before.0 before.1 after };
}

/// The store of 0 or 1 by a place in its own bell: it has not looked at its spin word since.
pub struct SetBell;

impl<V> Play<Option<V>, View<V>> for SetBell {
    ghost then = { λ step before stored after. SetsBell stored before after };
}

/// The load of the bell of a rival that is owed a ring: if it isn't 1, the rival is owed none.
pub struct FindBell;

impl<V> Play<Option<V>, View<V>> for FindBell {
    ghost then = { λ step before found after. FindsBell found before after };
}

/// The store of 0 in the bell of a rival that is owed a ring.
pub struct ClearBell;

impl<V> Play<Option<V>, View<V>> for ClearBell {
    ghost then = { λ step before stored after. ClearsBell stored before after };
}

/// The load with which a process inside takes in an idle one.
pub struct JoinPass;

impl<V> Join<View<V>> for JoinPass {
    ghost both = { joined_view };

    ghost spent = { Spent };
}

/// The load after which it knows `since` for the value that the other has seen.
pub struct LearnSince;

impl<V: Kept> Play<Option<V>, View<V>> for LearnSince {
    ghost then = { λ step before found after. LearnsSince V.since before.0 before.1 after };
}
