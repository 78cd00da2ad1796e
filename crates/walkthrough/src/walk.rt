//! `ya_core`: one process alone, driven by a caller that has the words.
ghost use Rattle.std.specs.Prelude.{◌≡◌, length, IfOk, IfSome};
ghost use Rattle.ya_core.specs.ArbitrationTree.{count_of_words};
ghost use Rattle.walkthrough.specs.Walk.{Leads, IsPassage};

use std::alloc::{AllocError, Global};
use ya_core::{Op, Shape, Walker};

/// More accesses than a passage alone makes one way, at any number of levels.
const MOST_ACCESSES: u32 = 64;

/// Makes the accesses that the walker requests, until it requests none or finds a value that a word can't have.
fn drive(walker: Walker, words: &mut [u64]) -> Walker
    requires { length words.old ≡ count_of_words walker.levels }
    ensures leads { Leads walker result }
    ensures size { length words.new ≡ length words.old }
{
    let mut walker = walker;
    for _access in 0..MOST_ACCESSES {
        match walker.op() {
            Op::Load(number) => {
                let value = words[number];
                if !walker.fits(value) {
                    return walker;
                }
                walker.saw(value);
            }
            Op::Store(number, value) => {
                words[number] = value;
                walker.done();
            }
            Op::Inside | Op::Idle => return walker,
        }
    }
    walker
}

/// Returns the numbers of remote accesses of a passage of place 0, alone in a tree with `levels` levels: until it is
/// inside, and until it is idle again. `None` if there is no such tree, or the passage doesn't end.
pub fn passage_alone(alloc: Global, levels: u32) -> Result<Option<(u64, u64)>, AllocError>
    ensures { IfOk result (λ passage. IfSome passage (λ counts. IsPassage levels 0 counts.0 counts.1)) }
{
    let Some(shape) = Shape::new(levels) else {
        return Ok(None);
    };
    let mut words = vec![in alloc; 0; shape.words()]?;
    let mut walker = Walker::new(shape, 0);
    walker.begin_entry();
    let mut walker = drive(walker, &mut words);
    let Op::Inside = walker.op() else {
        return Ok(None);
    };
    let entered = walker.remote();
    walker.begin_exit();
    let walker = drive(walker, &mut words);
    let Op::Idle = walker.op() else {
        return Ok(None);
    };
    Ok(Some((entered, walker.remote())))
}
