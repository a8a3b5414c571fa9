//! Runs of ASCII digits. A reader takes a prefix of a text, and returns what it found and the rest.
ghost use Rattle.std.specs.Prelude.{ℕ, ◌≡◌, ◌+◌, ◌/◌, ◌%◌, ◌^◌, ◌<◌, ◌≤◌, IsTrue, length, take, IfSome, option_map, unwrap_or};
ghost use Rattle.std.specs.List.{prefix_len};
ghost use Rattle.std.specs.Char.{is_ascii_digit};
ghost use Rattle.std.specs.Str.{all_ascii_digits};
ghost use Rattle.iso_time.specs.Digits as spec;

/// The number that at most twenty digits write.
fn number(digits: &[u8]) -> u128
    requires { spec.AreDigits 0 20 digits.now }
    ensures value { result ≡ spec.number_of digits.now }
    ensures bound { result < 10 ^ length digits.now }
{
    let mut number = 0;
    for digit in digits {
        number = number * 10 + (*digit - b'0') as u128;
    }
    number
}

/// How many digits the text begins with.
fn run_len(text: &[u8]) -> usize
    ensures len { result ≡ prefix_len is_ascii_digit text.now }
    ensures within { result ≤ length text.now }
    ensures ascii { IsTrue (all_ascii_digits (take result text.now)) }
{
    text.iter().take_while(|byte| byte.is_ascii_digit()).count()
}

/// All the digits that the text begins with, where there are from `least` to `most` of them.
#[tactic(auto, unfolding(crate::specs::Digits::leading_digits))]
fn run(text: &[u8], least: usize, most: usize) -> Option<(&[u8], &[u8])>
    ensures found { option_map (λ p. (p.0.now, p.1.now)) result ≡ spec.leading_digits least most text.now }
    ensures digits { IfSome result (λ p. spec.AreDigits least most p.0.now) }
{
    let len = run_len(text);
    if len < least || len > most {
        return None;
    }
    Some(text.split_at(len))
}

/// The number of one to twenty digits, all that the text begins with.
pub(crate) fn whole_number(text: &[u8]) -> Option<(u128, &[u8])>
    ensures found { option_map (λ p. (p.0, p.1.now)) result
        ≡ spec.number_found (spec.leading_digits 1 20 text.now) }
    ensures bound { IfSome result (λ p. p.0 < 10 ^ 20) }
{
    let (digits, rest) = run(text, 1, 20)?;
    Some((number(digits), rest))
}

/// Whether these are digits.
fn are_digits(bytes: &[u8]) -> bool
    ensures { result ≡ all_ascii_digits bytes.now }
{
    bytes.iter().all(|byte| byte.is_ascii_digit())
}

/// The number of the first `width` digits, at most four.
#[tactic(auto, unfolding(crate::specs::Digits::digits_at))]
pub(crate) fn field(text: &[u8], width: usize) -> Option<(u16, &[u8])>
    requires { width ≤ 4 }
    ensures found { option_map (λ p. (p.0, p.1.now)) result
        ≡ spec.number_found (spec.digits_at width text.now) }
    ensures bound { IfSome result (λ p. p.0 < 10 ^ width) }
{
    let (digits, rest) = text.split_at_checked(width)?;
    if !are_digits(digits) {
        return None;
    }
    Some((number(digits) as u16, rest))
}

/// The text after its first byte, where that is `mark`.
#[tactic(auto, unfolding(crate::specs::Digits::after_mark))]
pub(crate) fn after(text: &[u8], mark: u8) -> Option<&[u8]>
    ensures { option_map (λ rest. rest.now) result ≡ spec.after_mark mark text.now }
{
    match text {
        [first, rest @ ..] if *first == mark => Some(rest),
        _ => None,
    }
}

/// The nanoseconds of a decimal point and one to thirty digits, or 0 where the text doesn't begin with those.
#[tactic(auto, unfolding(crate::specs::Digits::fraction_at))]
pub(crate) fn fraction(text: &[u8]) -> (u32, &[u8])
    ensures nanos { result.0
        ≡ unwrap_or (option_map spec.fraction_nanos (spec.fraction_at text.now).0) 0 }
    ensures rest { result.1.now ≡ (spec.fraction_at text.now).1 }
    ensures bound { result.0 < 10 ^ 9 }
{
    let Some(point) = after(text, b'.') else {
        return (0, text);
    };
    let Some((digits, rest)) = run(point, 1, 30) else {
        return (0, text);
    };
    (leading_nanos(digits), rest)
}

/// The nanoseconds that the digits after a decimal point write: the first nine, and 0 for each missing one.
fn leading_nanos(digits: &[u8]) -> u32
    requires { spec.AreDigits 0 30 digits.now }
    ensures value { result ≡ spec.fraction_nanos digits.now }
    ensures bound { result < 10 ^ 9 }
{
    let len = digits.len().min(9);
    let nanos = number(&digits[..len]) * 10_u128.pow((9 - len) as u32);
    nanos as u32
}

/// The ASCII digit of a number at a decimal place, counted from 0 for the last.
pub(crate) fn digit(number: u32, place: u32) -> u8
    requires { place ≤ 9 }
    ensures { result ≡ 48 + number / 10 ^ place % 10 }
{
    b'0' + (number / 10_u32.pow(place) % 10) as u8
}
