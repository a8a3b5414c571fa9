// Decimal numbers of a few digits.
ghost use Rattle.std.specs.Prelude.{◌≡◌, MatchOption};
ghost use Rattle.std.specs.Str.{IsUtf8};
ghost use Rattle.std.specs.List.{list_all};
ghost use Rattle.std.specs.Char.{is_ascii_digit};
ghost use Rattle.bridge_jobs.specs.Numbers.{decimal_of};

/// The number of 1 to `most` digits, where it is below 2^32.
pub fn decimal(digits: &[u8], most: usize) -> Option<u32>
    ensures { result ≡ decimal_of most digits.now }
{
    if digits.len() > most || !are_digits(digits) {
        return None;
    }
    let text = text_of(digits)?;
    text.parse::<u32>().ok()
}

/// The bytes as text, where they are UTF-8.
pub fn text_of(bytes: &[u8]) -> Option<&str>
    ensures { MatchOption result (¬ (IsUtf8 bytes.now)) (λ text. text.now ≡ bytes.now) }
{
    str::from_utf8(bytes).ok()
}

fn are_digits(bytes: &[u8]) -> bool
    ensures { result ≡ list_all is_ascii_digit bytes.now }
{
    bytes.iter().all(|byte| byte.is_ascii_digit())
}
