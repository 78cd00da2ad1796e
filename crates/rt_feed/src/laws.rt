//! Laws of the feed text. Each function does nothing: its contract is the law, for all lines and texts.
ghost use Rattle.rt_feed.specs.Laws.{LineHasOneAnswer, AddressLineHasOneAnswer, AddressTextHasOneReading, CommandIsReadAgain};
ghost use Rattle.rt_feed.specs.Laws.{OnlyItsTextIsRead, OlderTextsStay, TextHasOneCut, TextHasOneReading};

/// `parse_line` returns the only answer that its contract allows.
#[tactic(auto, using(crate::proofs::OneAnswer::line_once, crate::proofs::OneAnswer::texts))]
pub fn one_answer()
    ensures { LineHasOneAnswer }
{
    rt_cidr::laws::one_answer();
    rt_cidr::laws::written();
    rt_cidr::laws::read_again();
}

/// `parse_address_line` returns the only answer that its contract allows.
#[tactic(auto, using(crate::proofs::OneAnswer::address_line_once, crate::proofs::OneAnswer::texts))]
pub fn one_address()
    ensures { AddressLineHasOneAnswer }
{
    rt_cidr::laws::one_answer();
    rt_cidr::laws::written();
    rt_cidr::laws::read_again();
}

/// `read_addresses` returns the only result that its contract allows.
pub fn one_address_text()
    ensures { AddressTextHasOneReading }
{
    one_address();
}

/// A line is a command exactly if it is the command's text: its words joined by single spaces, numbers plain.
pub fn command_text()
    ensures read { CommandIsReadAgain }
    ensures only { OnlyItsTextIsRead }
{
    one_answer();
}

/// A text that does not begin with the line `version 2` is read whole, as version 1.
pub fn older_texts()
    ensures { OlderTextsStay }
{}

/// `next_line` returns the only split that its contract allows.
pub fn one_cut()
    ensures { TextHasOneCut }
{}

/// Each line of a text has the same meaning, whatever the outcomes of its commands.
pub fn one_reading()
    ensures { TextHasOneReading }
{
    one_answer();
}
