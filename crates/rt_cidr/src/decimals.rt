//! Decimals: one or more digits, without a leading zero except for `0` itself.
ghost use Rattle.std.specs.Prelude.{◌≡◌, ◌<◌, length, slice_index, IsTrue, ◌↔◌};
ghost use Rattle.rt_cidr.specs.Reading.{ReadsDecimal};
ghost use Rattle.rt_cidr.specs.Text.{zero_digit};
ghost use Rattle.rt_cidr.specs.inside.Front.{ReadsFront, IsCappedDecimal, LeadingDigits};

/// Values from here on aren't distinguished.
const CAP: u64 = 1 << 32;

/// Parses a decimal of at most 4294967295: only digits, no sign, no space, and no leading zero except for `0` itself.
pub fn decimal_u32(text: &[u8]) -> Option<u32>
    ensures { ReadsDecimal text.now result }
{
    let (value, rest) = read_decimal(text)?;
    if !rest.is_empty() {
        return None;
    }
    u32::try_from(value).ok()
}

/// Reads the decimal at the front of the text, which ends before the first byte that isn't a digit; returns its value
/// and the rest of the text. A value above 2^32 is returned as 2^32.
pub(crate) fn read_decimal(text: &[u8]) -> Option<(u64, &[u8])>
    ensures { ReadsFront IsCappedDecimal text.now result }
{
    let (value, len) = leading_digits(text);
    if len == 0 || has_leading_zero(&text[..len]) {
        return None;
    }
    Some((value, &text[len..]))
}

/// Returns true if the digits begin with a zero and there are at least two.
fn has_leading_zero(digits: &[u8]) -> bool
    ensures { IsTrue result ↔ ((1 < length digits.now) × (slice_index digits.now 0 ≡ zero_digit)) }
{
    matches!(digits, [b'0', _, ..])
}

/// Returns the value of the digits at the front of the text, at most 2^32, and their number.
fn leading_digits(text: &[u8]) -> (u64, usize)
    ensures { LeadingDigits text.now result.0 result.1 }
{
    let mut value = 0;
    let mut len = 0;
    for byte in text {
        if !byte.is_ascii_digit() {
            break;
        }
        value = (value * 10 + u64::from(byte - b'0')).min(CAP);
        len += 1;
    }
    (value, len)
}
