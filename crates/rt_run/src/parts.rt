//! The parts of an input, one for each thread that executes a share of its texts: a thread owns the texts of its part, and
//! gives back their memory as it executes them.
ghost use Rattle.std.specs.Prelude.{◌≡◌, ◌<◌, [], ℕ, length, get_or, All, IfOk, vec_len};
ghost use Rattle.rt_run.specs.RunText.{InputContents};
ghost use Rattle.rt_run.specs.Shares.{share_with};
ghost use Rattle.rt_run.specs.inside.Runs.{part_of};

use crate::input::RunInput;
use std::alloc::{AllocError, Global};

/// Takes the texts out of the input, each into the part of its share: `dealt` has the share of each text, in order. Returns the
/// part of each share. Its error: memory ran out.
pub(crate) fn take_parts(
    alloc: Global,
    input: &mut RunInput,
    dealt: &[usize],
    shares: usize,
) -> Result<Vec<RunInput>, AllocError>
    ensures parts { IfOk result (λ parts. (share : ℕ) (none : InputContents) → share < shares → get_or parts.items share none ≡ part_of input.old dealt.now share) }
    ensures count { IfOk result (λ parts. length parts.items ≡ shares) }
    ensures as_many { length input.new.texts ≡ length input.old.texts }
    ensures limit { input.new.limit ≡ input.old.limit }
{
    let mut parts = Vec::with_capacity(alloc, shares)?;
    for share in 0..shares {
        let mut part = input.emptied(alloc)?;
        input.exchange(&mut part, dealt, share);
        parts.push_reserved(part);
    }
    Ok(parts)
}

/// Puts the texts of each part back into the input.
pub(crate) fn put_back(input: &mut RunInput, dealt: &[usize], parts: &mut [RunInput])
    requires { All (λ part. length part.texts ≡ length input.old.texts) parts.old }
    ensures texts { (k : ℕ) (none : InputContents) → k < length input.old.texts → share_with dealt.now k < length parts.old
        → get_or input.new.texts k [] ≡ get_or (get_or parts.old (share_with dealt.now k) none).texts k [] }
    ensures as_many { length input.new.texts ≡ length input.old.texts }
    ensures limit { input.new.limit ≡ input.old.limit }
{
    for share in 0..parts.len() {
        input.exchange(&mut parts[share], dealt, share);
    }
}
