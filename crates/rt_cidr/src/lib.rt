//! IPv4 addresses and prefixes, their text form (RFC 4632, section 3.1), and writing text to a writer.
//!
//! A text is read as a whole, by one grammar: four octets joined by dots, and for a prefix also a slash and the length.
//! Each number is a decimal without a leading zero. The printers write the same form.
//!
//! ```
//! let block = Prefix::parse(b"192.0.2.0/24")?;
//! if block.covers(Addr::parse(b"192.0.2.7")?) {
//!     block.write_to(&mut out)?;
//! }
//! ```
//!
//! Contracts see an [`Addr`] as its 32 bits, and a [`Prefix`] as its base, its length and the fact that they form a
//! prefix. A [`ShortText`] is the list of its bytes: each printer prepends its text, and only requires room for it.
//!
//! No call allocates. A writer may accept any part of what it is given. A clause of std's `Write` says that it never
//! reports more, so an implementation that does is rejected when it is proved.
//!
//! Only tested: that [`put`] returns the error of [`put_counted`], and that no writer is flushed.
#![tactic(auto)]

mod address;
mod decimals;
pub mod laws;
mod output;
mod prefixes;
mod short_text;

pub use address::Addr;
pub use decimals::decimal_u32;
pub use output::{Sink, put, put_counted};
pub use prefixes::{Prefix, TextFault};
pub use short_text::{SHORT_TEXT_BYTES, ShortText};
