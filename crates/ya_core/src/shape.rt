//! The words of a tree in one flat row.
ghost use Rattle.std.specs.Prelude.{◌≡◌, ◌↔◌, ℕ, ◌+◌, ◌-◌, ◌*◌, ◌^◌, ◌<◌, ◌≤◌, IsSome, IfSome};
ghost use Rattle.ya_core.specs.declared.limits.TheConstants.{MAX_LEVELS, MAX_PLACES};
ghost use Rattle.ya_core.specs.ArbitrationTree.{HasShape, IsWord, number_of, count_of_words, nodes_below};

use crate::limits::MAX_LEVELS;
use crate::word::Word;
use std::marker::Model;

/// An arbitration tree of 1 to [`MAX_LEVELS`] levels: its numbers of places and words, and the number of each word in
/// one flat row. Contracts see it as its number of levels.
#[derive(Clone, Copy, Debug)]
pub struct Shape {
    levels: u32,
}

impl Model for Shape {
    ghost Value = { ℕ };

    ghost view = { λ s. s.levels };

    ghost invariant = { λ s. HasShape s.levels };

    ghost inverse = { λ n. record { levels = n } };
}

impl Shape {
    /// Returns the tree of this many levels, or `None` outside 1 to [`MAX_LEVELS`].
    #[inline(always)]
    pub fn new(levels: u32) -> Option<Shape>
        ensures some { IsSome result ↔ HasShape levels }
        ensures value { IfSome result (λ shape. shape ≡ levels) }
    {
        if (1..=MAX_LEVELS).contains(&levels) {
            Some(Shape { levels })
        } else {
            None
        }
    }

    /// Returns the number of levels, 1 to [`MAX_LEVELS`].
    #[inline(always)]
    pub(crate) fn levels(&self) -> u32
        ensures value { result ≡ self.now }
        ensures least { 1 ≤ result }
        ensures most { result ≤ MAX_LEVELS }
    {
        self.levels
    }

    /// Returns the number of places: two to the power of the levels.
    #[inline(always)]
    pub fn places(&self) -> usize
        ensures value { result ≡ 2 ^ self.now }
        ensures least { 2 ≤ result }
        ensures most { result ≤ MAX_PLACES }
    {
        1 << self.levels
    }

    /// Returns the number of words.
    pub fn words(&self) -> usize
        ensures { result ≡ count_of_words self.now }
    {
        3 * (self.places() - 1) + self.levels as usize * self.places()
    }

    /// Returns the number of the word C of that side of the node. Levels are counted from 1, nodes and sides from 0.
    #[inline(always)]
    pub fn c(&self, level: u32, node: usize, side: usize) -> usize
        requires { IsWord self.now (Word.C level node side) }
        ensures value { result ≡ number_of self.now (Word.C level node side) }
        ensures within { result < count_of_words self.now }
    {
        2 * (self.nodes_below(level) + node) + side
    }

    /// Returns the number of the word T of the node. Levels are counted from 1, nodes from 0.
    #[inline(always)]
    pub fn t(&self, level: u32, node: usize) -> usize
        requires { IsWord self.now (Word.T level node) }
        ensures value { result ≡ number_of self.now (Word.T level node) }
        ensures within { result < count_of_words self.now }
    {
        2 * (self.places() - 1) + self.nodes_below(level) + node
    }

    /// Returns the number of the word P of the place at the level. Levels are counted from 1, places from 0.
    #[inline(always)]
    pub fn p(&self, level: u32, place: usize) -> usize
        requires { IsWord self.now (Word.P level place) }
        ensures value { result ≡ number_of self.now (Word.P level place) }
        ensures within { result < count_of_words self.now }
    {
        3 * (self.places() - 1) + (level as usize - 1) * self.places() + place
    }

    /// Returns the number of a word.
    #[inline(always)]
    pub(crate) fn number(&self, word: Word) -> usize
        requires { IsWord self.now word }
        ensures value { result ≡ number_of self.now word }
        ensures within { result < count_of_words self.now }
    {
        match word {
            Word::C(level, node, side) => self.c(level, node, side),
            Word::T(level, node) => self.t(level, node),
            Word::P(level, place) => self.p(level, place),
        }
    }

    /// Returns the number of nodes in the levels below.
    #[inline(always)]
    fn nodes_below(&self, level: u32) -> usize
        requires least { 1 ≤ level }
        requires most { level ≤ self.now }
        ensures value { result ≡ nodes_below self.now level }
        ensures room { result + 2 ^ (self.now - level) ≤ MAX_PLACES }
    {
        self.places() - (1 << (self.levels - level + 1))
    }
}
