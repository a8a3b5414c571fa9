// A length in seconds with decimals.
ghost use Rattle.std.specs.Prelude.{◌≡◌, ◌<◌, ◌+◌, ◌/◌, ◌%◌, ◌++◌, All, OnOk};
ghost use Rattle.std.specs.String.{string_bytes};
ghost use Rattle.hls_writer.specs.Lines.{seconds_bytes};
ghost use Rattle.iso_time.specs.Digits.{padded_digits};

use exact_time::Digits;
use std::alloc::AllocError;
use std::fmt::Write;

/// Appends a number of units, of which 10 to the number of digits make a second, as seconds with that many decimals.
pub fn push_seconds(text: &mut String, digits: Digits, units: u128) -> Result<(), AllocError>
    ensures { OnOk result (string_bytes text.new ≡ string_bytes text.old ++ seconds_bytes digits units) }
{
    let whole = units / u128::from(digits.unit());
    write!(text, "{whole}.")?;
    let decimals = nine_decimals(units);
    push_digits(text, &decimals[9 - usize::from(digits.count())..])
}

/// Appends decimal digits.
fn push_digits(text: &mut String, digits: &[u8]) -> Result<(), AllocError>
    requires { All (λ digit. digit < 128) digits.now }
    ensures { OnOk result (string_bytes text.new ≡ string_bytes text.old ++ digits.now) }
{
    for digit in digits {
        text.push(char::from(*digit))?;
    }
    Ok(())
}

/// The last nine decimal digits of a number, with leading zeros.
#[tactic(auto, unfolding(iso_time::specs::Digits::padded_digits))]
fn nine_decimals(number: u128) -> [u8; 9]
    ensures digits { result ≡ padded_digits 9 number }
    ensures ascii { All (λ digit. digit < 128) result }
{
    [
        decimal_at(number, 100_000_000),
        decimal_at(number, 10_000_000),
        decimal_at(number, 1_000_000),
        decimal_at(number, 100_000),
        decimal_at(number, 10_000),
        decimal_at(number, 1_000),
        decimal_at(number, 100),
        decimal_at(number, 10),
        decimal_at(number, 1),
    ]
}

/// The decimal digit of a number with this unit.
fn decimal_at(number: u128, unit: u128) -> u8
    requires { 0 < unit }
    ensures digit { result ≡ 48 + number / unit % 10 }
    ensures ascii { result < 128 }
{
    b'0' + (number / unit % 10) as u8
}
