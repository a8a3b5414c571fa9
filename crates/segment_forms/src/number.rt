// Addresses with a number.
ghost use Rattle.std.specs.Prelude.{◌≡◌, ◌++◌, bytes_eq, decimal};
ghost use Rattle.template_ids.specs.Templates.{padded};
ghost use Rattle.segment_forms.specs.Numbers.{has_width};
ghost use Rattle.segment_forms.specs.Patterns.{IsPlaced, address_with};

use crate::Pattern;
use crate::run::value_of;

/// Whether an address is the one that a pattern has with a number.
pub fn is_address(first: &str, pattern: Pattern, number: u32, address: &str) -> bool
    requires { IsPlaced first.now pattern }
    ensures { result ≡ bytes_eq address.now (address_with first.now pattern number) }
{
    let first = first.as_bytes();
    is_between(
        address.as_bytes(),
        &first[..pattern.prefix_len],
        &first[pattern.suffix_start..],
        number,
        usize::from(pattern.width),
    )
}

/// Whether an address is a number, padded to a width, between a prefix and a suffix.
fn is_between(address: &[u8], prefix: &[u8], suffix: &[u8], number: u32, width: usize) -> bool
    ensures { result ≡ bytes_eq address.now (prefix.now ++ (padded width (decimal number) ++ suffix.now)) }
{
    let Some(rest) = address.strip_prefix(prefix) else {
        return false;
    };
    let Some(digits) = rest.strip_suffix(suffix) else {
        return false;
    };
    is_number(digits, number, width)
}

/// Whether digits are a number that is padded with zeros to a width.
fn is_number(digits: &[u8], number: u32, width: usize) -> bool
    ensures { result ≡ bytes_eq digits.now (padded width (decimal number)) }
{
    match value_of(digits) {
        Some(value) => value == number && has_width(digits, width),
        None => false,
    }
}

/// Whether digits may be a number that is padded to a width.
fn has_width(digits: &[u8], width: usize) -> bool
    ensures { result ≡ has_width width digits.now }
{
    match digits {
        [] => false,
        [b'0', _, ..] => digits.len() == width,
        _ => digits.len() >= width,
    }
}
