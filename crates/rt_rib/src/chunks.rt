//! Look-ups of many addresses, a chunk of them at a time.
ghost use Rattle.std.specs.Prelude.{◌≡◌, length};
ghost use Rattle.rt_rib.specs.Chunks.{answered};

/// A way to answer addresses, a chunk of them at a time.
pub trait ChunkLookup<X, Y> {
    ghost use Rattle.std.specs.Prelude.{◌≡◌, ◌<◌, ◌≤◌, ℕ, length};
    ghost use Rattle.rt_rib.specs.Chunks.{answered};

    // The most addresses of a chunk.
    ghost chunk_size: { Self → ℕ };

    // The answer to an address, in place of an earlier answer.
    ghost answer: { Self → X → Y → Y };

    /// Returns the most addresses of a chunk, at least one.
    fn chunk_size(&self) -> usize
        ensures size { result ≡ chunk_size self.now }
        ensures some { 0 < result };

    /// Replaces each answer by the one to the address with the same index.
    fn look_up_chunk(&self, addresses: &[X], answers: &mut [Y])
        requires chunk { length addresses.now ≤ chunk_size self.now }
        requires size { length answers.old ≡ length addresses.now }
        ensures { answers.new ≡ answered (answer self.now) addresses.now answers.old };
}

/// Replaces each answer by the one to the address with the same index, one chunk of the addresses after another. The two
/// lists must be equally long.
pub fn look_up_in_chunks<X, Y, L: ChunkLookup<X, Y>>(lookup: &L, addresses: &[X], answers: &mut [Y])
    requires { length answers.old ≡ length addresses.now }
    ensures { answers.new ≡ answered (L.answer lookup.now) addresses.now answers.old }
{
    let most = lookup.chunk_size();
    let mut start = 0;
    while start < addresses.len() {
        let end = start + (addresses.len() - start).min(most);
        lookup.look_up_chunk(&addresses[start..end], &mut answers[start..end]);
        start = end;
    }
}
