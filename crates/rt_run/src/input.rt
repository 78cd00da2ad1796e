//! The input of a query or of a side of a comparison: the texts of its feeds, whose memory is given back as they are executed.
ghost use Rattle.std.specs.Prelude.{◌≡◌, ◌<◌, ◌≤◌, [], length, map, get_or, set, replicate, IfOk, vec_len};
ghost use Rattle.rt_rib.specs.declared.limits.TheConstants.{MAX_FEEDS};
ghost use Rattle.rt_rib.specs.Book.{IsLimit};
ghost use Rattle.rt_run.specs.RunText.{InputContents};
ghost use Rattle.rt_run.specs.Shares.{share_with};
ghost use Rattle.rt_run.specs.inside.Runs.{AreExchanged};

use std::alloc::{AllocError, Global};
use std::marker::Model;
use std::mem;

/// The texts of feeds, the k-th for feed k, and the maximum number of routes of each feed. The text of a feed that is left out
/// is empty.
#[derive(Debug, Drop)]
pub struct RunInput {
    texts: Vec<Vec<u8>>,
    pub(crate) limit: u32,
}

impl Model for RunInput {
    ghost use Rattle.std.specs.Prelude.{◌≤◌, map, vec_len};
    ghost use Rattle.rt_rib.specs.declared.limits.TheConstants.{MAX_FEEDS};
    ghost use Rattle.rt_rib.specs.Book.{IsLimit};
    ghost use Rattle.rt_run.specs.RunText.{InputContents};

    ghost Value = { InputContents };

    ghost view = { λ i. record { texts = map (λ text. text.items) i.texts.items; limit = i.limit } };

    ghost invariant = { λ i. IsLimit i.limit × (vec_len i.texts ≤ MAX_FEEDS) };
}

impl RunInput {
    /// Returns the input of these texts; a feed has at most `limit` routes.
    pub fn new(texts: Vec<Vec<u8>>, limit: u32) -> RunInput
        requires limited { IsLimit limit }
        requires few { vec_len texts ≤ MAX_FEEDS }
        ensures { result ≡ record { texts = map (λ text. text.items) texts.items; limit = limit } }
    {
        RunInput { texts, limit }
    }

    /// Returns the texts.
    pub fn texts(&self) -> &[Vec<u8>]
        ensures { map (λ text. text.items) result.now ≡ self.now.texts }
    {
        self.texts.as_slice()
    }

    /// Returns the number of texts, the empty ones included.
    pub fn count(&self) -> usize
        ensures count { result ≡ length self.now.texts }
        ensures few { result ≤ MAX_FEEDS }
    {
        self.texts.len()
    }

    /// Returns the text at this place, or an empty one if there is none.
    pub(crate) fn text(&self, index: usize) -> &[u8]
        ensures { result.now ≡ get_or self.now.texts index [] }
    {
        match self.texts.get(index) {
            Some(text) => text.as_slice(),
            None => &[],
        }
    }

    /// Gives back the memory of the text at this place, which is empty then.
    pub(crate) fn give_back(&mut self, alloc: Global, index: usize)
        requires { index < length self.old.texts }
        ensures { self.new ≡ record { texts = set self.old.texts index []; limit = self.old.limit } }
    {
        self.texts[index] = Vec::new(alloc);
    }

    /// Returns an input with the same limit and as many texts, all of them empty.
    pub(crate) fn emptied(&self, alloc: Global) -> Result<RunInput, AllocError>
        ensures { IfOk result (λ input. input ≡ record { texts = replicate (length self.now.texts) []; limit = self.now.limit }) }
    {
        let texts = empty_texts(alloc, self.texts.len())?;
        Ok(RunInput {
            texts,
            limit: self.limit,
        })
    }

    /// Exchanges the texts of this share with those of the other input.
    pub(crate) fn exchange(&mut self, other: &mut RunInput, dealt: &[usize], share: usize)
        requires { length self.old.texts ≡ length other.old.texts }
        ensures texts { AreExchanged dealt.now share self.old.texts other.old.texts self.new.texts other.new.texts }
        ensures limits { (self.new.limit ≡ self.old.limit) × (other.new.limit ≡ other.old.limit) }
    {
        exchange(&mut self.texts, &mut other.texts, dealt, share);
    }
}

/// Returns this many empty texts.
fn empty_texts(alloc: Global, count: usize) -> Result<Vec<Vec<u8>>, AllocError>
    ensures { IfOk result (λ texts. map (λ text. text.items) texts.items ≡ replicate count []) }
{
    let mut texts = Vec::with_capacity(alloc, count)?;
    for _ in 0..count {
        texts.push_reserved(Vec::new(alloc));
    }
    Ok(texts)
}

/// Exchanges the elements of both lists at the places that are dealt to this share.
fn exchange<T>(one: &mut Vec<T>, other: &mut Vec<T>, dealt: &[usize], share: usize)
    requires { length one.old.items ≡ length other.old.items }
    ensures { AreExchanged dealt.now share one.old.items other.old.items one.new.items other.new.items }
{
    for index in 0..one.len() {
        if share_with(dealt, index) == share {
            mem::swap(&mut one[index], &mut other[index]);
        }
    }
}

/// Returns the share that has the text at this place: 0 if it isn't dealt.
pub(crate) fn share_with(dealt: &[usize], index: usize) -> usize
    ensures { result ≡ share_with dealt.now index }
{
    dealt.get(index).copied().unwrap_or(0)
}
