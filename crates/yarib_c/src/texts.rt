//! Prefixes and addresses as texts.
ghost use Rattle.std.specs.Prelude.{◌≡◌, ◌≢◌, ℕ, ◌<◌, ◌≤◌, length, take, [], ◌∷◌};
ghost use Rattle.rt_cidr.specs.Cidr.{IsPrefix};
ghost use Rattle.rt_cidr.specs.Text.{IsPrefixText, IsAddressText, prefix_text, address_text};
ghost use Rattle.yarib_c.specs.Calls.{PutsText};
ghost use Rattle.yarib_c.specs.Statuses.{IsOneOf, Check};
ghost use Rattle.yarib_c.specs.declared.status.TheConstants.{DONE, BAD_SIZE, BAD_TEXT, BAD_LENGTH, BAD_BITS};

use crate::status::{BAD_BITS, BAD_LENGTH, BAD_SIZE, BAD_TEXT, DONE};
use rt_cidr::{Addr, Prefix, ShortText, TextFault};

/// A prefix.
#[repr(C)]
#[derive(Clone, Copy)]
pub struct YaribPrefix {
    pub base: u32,
    pub len: u8,
}

/// Reads a prefix.
#[unsafe(no_mangle)]
pub extern "C" fn yarib_prefix_parse(text: &[u8], prefix: &mut YaribPrefix) -> u32
    ensures done { result ≡ DONE → IsPrefix prefix.new.base prefix.new.len × IsPrefixText text.now prefix.new.base prefix.new.len }
    ensures text { result ≡ BAD_TEXT → (base len : ℕ) → ¬ IsPrefixText text.now base len }
    ensures length { result ≡ BAD_LENGTH → (base len : ℕ) × IsPrefixText text.now base len × (32 < len) }
    ensures bits { result ≡ BAD_BITS → (base len : ℕ) × IsPrefixText text.now base len × (len ≤ 32) × ¬ IsPrefix base len }
    ensures silent { result ≢ DONE → prefix.new ≡ prefix.old }
    ensures known { IsOneOf (DONE ∷ BAD_TEXT ∷ BAD_LENGTH ∷ BAD_BITS ∷ []) result }
{
    match Prefix::parse(text) {
        Ok(read) => {
            *prefix = YaribPrefix {
                base: read.base(),
                len: read.len(),
            };
            DONE
        }
        Err(TextFault::Text) => BAD_TEXT,
        Err(TextFault::Length) => BAD_LENGTH,
        Err(TextFault::Bits) => BAD_BITS,
    }
}

/// Writes a prefix: the text takes the first `used` of the bytes.
#[tactic(auto, using(crate::proofs::TextLengths::lengths))]
#[unsafe(no_mangle)]
pub extern "C" fn yarib_prefix_print(prefix: &YaribPrefix, text: &mut [u8], used: &mut usize) -> u32
    ensures done { result ≡ DONE → IsPrefix prefix.now.base prefix.now.len × PutsText (prefix_text prefix.now.base prefix.now.len) text.new used.new }
    ensures size { result ≡ BAD_SIZE → length text.old < length (prefix_text prefix.now.base prefix.now.len) }
    ensures length { result ≡ BAD_LENGTH → 32 < prefix.now.len }
    ensures bits { result ≡ BAD_BITS → (prefix.now.len ≤ 32) × ¬ IsPrefix prefix.now.base prefix.now.len }
    ensures silent { result ≢ DONE → (text.new ≡ text.old) × (used.new ≡ used.old) }
    ensures order { Check (32 < prefix.now.len) BAD_LENGTH (Check (¬ IsPrefix prefix.now.base prefix.now.len) BAD_BITS
        (Check (length text.old < length (prefix_text prefix.now.base prefix.now.len)) BAD_SIZE (IsOneOf (DONE ∷ [])))) result }
    ensures known { IsOneOf (DONE ∷ BAD_SIZE ∷ BAD_LENGTH ∷ BAD_BITS ∷ []) result }
{
    let printed = match Prefix::new(prefix.base, prefix.len) {
        Ok(printed) => printed,
        Err(TextFault::Bits) => return BAD_BITS,
        Err(_) => return BAD_LENGTH,
    };
    let mut short = ShortText::new();
    printed.prepend_to(&mut short);
    put_text(short.as_bytes(), text, used)
}

/// Reads an address.
#[unsafe(no_mangle)]
pub extern "C" fn yarib_address_parse(text: &[u8], address: &mut u32) -> u32
    ensures done { result ≡ DONE → IsAddressText text.now address.new }
    ensures text { result ≡ BAD_TEXT → (a : ℕ) → ¬ IsAddressText text.now a }
    ensures silent { result ≢ DONE → address.new ≡ address.old }
    ensures known { IsOneOf (DONE ∷ BAD_TEXT ∷ []) result }
{
    match Addr::parse(text) {
        Ok(read) => {
            *address = read.0;
            DONE
        }
        Err(_) => BAD_TEXT,
    }
}

/// Writes an address: the text takes the first `used` of the bytes.
#[tactic(auto, using(crate::proofs::TextLengths::lengths))]
#[unsafe(no_mangle)]
pub extern "C" fn yarib_address_print(address: u32, text: &mut [u8], used: &mut usize) -> u32
    ensures done { result ≡ DONE → PutsText (address_text address) text.new used.new }
    ensures size { result ≡ BAD_SIZE → length text.old < length (address_text address) }
    ensures silent { result ≢ DONE → (text.new ≡ text.old) × (used.new ≡ used.old) }
    ensures known { IsOneOf (DONE ∷ BAD_SIZE ∷ []) result }
{
    let mut short = ShortText::new();
    Addr(address).prepend_to(&mut short);
    put_text(short.as_bytes(), text, used)
}

/// Puts the bytes at the front of the text, where it has room for them.
fn put_text(bytes: &[u8], text: &mut [u8], used: &mut usize) -> u32
    ensures done { result ≡ DONE → PutsText bytes.now text.new used.new }
    ensures size { result ≡ BAD_SIZE → length text.old < length bytes.now }
    ensures silent { result ≢ DONE → (text.new ≡ text.old) × (used.new ≡ used.old) }
    ensures known { IsOneOf (DONE ∷ BAD_SIZE ∷ []) result }
{
    if text.len() < bytes.len() {
        return BAD_SIZE;
    }
    text[..bytes.len()].copy_from_slice(bytes);
    *used = bytes.len();
    DONE
}
