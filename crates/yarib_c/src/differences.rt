//! The addresses for which two tables give different answers.
ghost use Rattle.std.specs.Prelude.{◌≡◌, ◌≢◌, ◌≤◌, ◌⊎◌, None, [], ◌∷◌, MatchOption};
ghost use Rattle.rt_diff.specs.Answers.{own_numbers};
ghost use Rattle.rt_diff.specs.Differences.{IsFirstDifference};
ghost use Rattle.yarib_c.specs.Kinds.{routes_in, IsForwarding};
ghost use Rattle.yarib_c.specs.Calls.{held_in, HandleHolds, addr, WithHeld};
ghost use Rattle.yarib_c.specs.Differences.{by_number, TellsDifference, IsAlikeFrom};
ghost use Rattle.yarib_c.specs.Statuses.{IsOneOf, Check};
ghost use Rattle.yarib_c.specs.declared.status.TheConstants.{DONE, NOTHING, BAD_NUMBER, NONE_LEFT, WRONG_KIND};

use crate::handle::{Yarib, with_held};
use crate::lists::FormOf;
use crate::routes::YaribRoute;
use crate::status::{BAD_NUMBER, DONE, NONE_LEFT, WRONG_KIND};
use rt_cidr::Addr;
use rt_diff::{CompareBy, Comparison, Difference, TableAnswer};
use rt_rib::Table;
use std::alloc::Global;

/// A range of addresses for which two tables give different answers, and the answers. If hops are compared, each answer has only a
/// hop.
#[repr(C)]
#[derive(Clone, Copy)]
pub struct YaribDifference {
    pub first: u32,
    pub last: u32,
    pub before: YaribRoute,
    pub after: YaribRoute,
}

impl YaribDifference {
    ghost use Rattle.yarib_c.specs.Differences.{told_difference};

    fn of(found: Difference) -> YaribDifference
        ensures { result ≡ told_difference found }
    {
        YaribDifference {
            first: found.first.0,
            last: found.last.0,
            before: YaribRoute::told(found.old),
            after: YaribRoute::told(found.new),
        }
    }
}

impl YaribRoute {
    ghost use Rattle.yarib_c.specs.Differences.{told_as};

    fn told(answer: TableAnswer) -> YaribRoute
        ensures { result ≡ told_as answer }
    {
        match answer {
            TableAnswer::NoRoute => YaribRoute::NONE,
            TableAnswer::Hop(hop) => YaribRoute::of_hop(hop),
            TableAnswer::Route(route) => YaribRoute::of(route),
        }
    }
}

/// Writes the first range from the address on for which the two tables give different answers. They are compared by next hop if `by`
/// is 0, and by whole route if it is 1. The two handles are different.
#[unsafe(no_mangle)]
pub extern "C" fn yarib_first_difference(
    alloc: Global,
    old: &mut Yarib,
    new: &mut Yarib,
    by: u32,
    from: u32,
    difference: &mut YaribDifference,
) -> u32
    ensures done { result ≡ DONE → HandleHolds old.old (λ b. HandleHolds new.old (λ c. TellsDifference by (routes_in b) (routes_in c) from difference.new)) }
    ensures alike { result ≡ NONE_LEFT → HandleHolds old.old (λ b. HandleHolds new.old (λ c. IsAlikeFrom by (routes_in b) (routes_in c) from)) }
    ensures absent { result ≡ NOTHING → (held_in old.old ≡ None) ⊎ (held_in new.old ≡ None) }
    ensures number { result ≡ BAD_NUMBER → 2 ≤ by }
    ensures kind { result ≡ WRONG_KIND → HandleHolds old.old IsForwarding ⊎ HandleHolds new.old IsForwarding }
    ensures silent { result ≢ DONE → difference.new ≡ difference.old }
    ensures old { held_in old.new ≡ held_in old.old }
    ensures new { held_in new.new ≡ held_in new.old }
    ensures order { WithHeld old.old (λ b. WithHeld new.old (λ c. Check (2 ≤ by) BAD_NUMBER
        (Check (IsForwarding b ⊎ IsForwarding c) WRONG_KIND (IsOneOf (DONE ∷ NONE_LEFT ∷ []))))) result }
    ensures known { IsOneOf (DONE ∷ NOTHING ∷ BAD_NUMBER ∷ NONE_LEFT ∷ WRONG_KIND ∷ []) result }
{
    with_held!(old, alloc, old_held => with_held!(new, alloc, new_held => match compared_by(by) {
        None => BAD_NUMBER,
        Some(by) => match (old_held.table(), new_held.table()) {
            (Some(before), Some(after)) => match first_difference(before, after, by, from) {
                None => NONE_LEFT,
                Some(found) => {
                    *difference = YaribDifference::of(found);
                    DONE
                }
            },
            _ => WRONG_KIND,
        },
    }))
}

/// Returns the part of an answer that is compared, if the number denotes one.
fn compared_by(by: u32) -> Option<CompareBy>
    ensures { MatchOption result (2 ≤ by) (λ way. by_number way ≡ by) }
{
    match by {
        0 => Some(CompareBy::Hop),
        1 => Some(CompareBy::Route),
        _ => None,
    }
}

/// Returns the first range from the address on for which the tables give different answers.
fn first_difference(
    old: &Table<Global>,
    new: &Table<Global>,
    by: CompareBy,
    from: u32,
) -> Option<Difference>
    ensures { IsFirstDifference by (own_numbers old.now.routes) (own_numbers new.now.routes) (addr from) result }
{
    Comparison::new(old, new, by).first_difference(Addr(from))
}
