//! Theorems about the text forms and about prefixes. Each function does nothing: its contract is the theorem, for all
//! texts and values.
ghost use Rattle.rt_cidr.specs.Text.{IsDecimal, IsAddressText};
ghost use Rattle.rt_cidr.specs.Reading.{ReadsDecimal, ReadsAddress, ReadsPrefix};
ghost use Rattle.rt_cidr.specs.Laws.{HasOneNumber, HasOneText, HasOnePair, PairHasOneText, AddressFits, HasOneAnswer, PairHasOneAnswer};
ghost use Rattle.rt_cidr.specs.Laws.{WritesDecimal, WritesAddress, WritesPrefix, ReadsDecimalAgain, ReadsAddressAgain, ReadsPrefixAgain};
ghost use Rattle.rt_cidr.specs.Laws.{SamePrefix, CoversItsRange, ContainsByRange, ContainsWhatItCovers, CoveringAreNested, CoveringAreSame};

/// A text denotes at most one number, one address, and one pair of an address and a length. An address has 32 bits.
pub fn one_value()
    ensures decimal { HasOneNumber IsDecimal }
    ensures address { HasOneNumber IsAddressText }
    ensures fits { AddressFits }
    ensures pair { HasOnePair }
{}

/// Each number, each address and each pair (with a length of any size) has at most one text.
pub fn one_text()
    ensures decimal { HasOneText IsDecimal }
    ensures address { HasOneText IsAddressText }
    ensures pair { PairHasOneText }
{}

/// The contracts of `decimal_u32`, `Addr::parse`, `Prefix::parse` and `Prefix::new` allow only one answer.
pub fn one_answer()
    ensures decimal { HasOneAnswer ReadsDecimal }
    ensures address { HasOneAnswer ReadsAddress }
    ensures prefix { HasOneAnswer ReadsPrefix }
    ensures pair { PairHasOneAnswer }
{}

/// The printers write text of the grammar.
pub fn written()
    ensures decimal { WritesDecimal }
    ensures address { WritesAddress }
    ensures prefix { WritesPrefix }
{}

/// Reading what the printers wrote returns the same value.
pub fn read_again()
    ensures decimal { ReadsDecimalAgain }
    ensures address { ReadsAddressAgain }
    ensures prefix { ReadsPrefixAgain }
{}

/// Two prefixes with the same base and length are equal.
pub fn same_prefix()
    ensures { SamePrefix }
{}

/// A prefix covers the addresses from its base up to, but not including, base plus size. It contains the prefixes
/// that begin in this range and aren't shorter.
pub fn ranges()
    ensures covers { CoversItsRange }
    ensures contains { ContainsByRange }
{}

/// A prefix contains exactly those prefixes whose addresses it covers. If two prefixes cover the same address, the
/// shorter contains the longer, and they are equal if they are equally long: at most one prefix of each length matches.
pub fn nested()
    ensures contains { ContainsWhatItCovers }
    ensures nested { CoveringAreNested }
    ensures same { CoveringAreSame }
{}
