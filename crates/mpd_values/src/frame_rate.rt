// Frame rates.
ghost use Rattle.std.specs.Prelude.{◌≡◌, ◌^◌, IfSome, option_map};
ghost use Rattle.mpd_values.specs.Numbers.{kept_if, is_between, numeral_of};
ghost use Rattle.mpd_values.specs.FrameRates.{frame_rate_between};

use crate::number::read_numeral;
use bridge_io::Ratio;

/// Reads a frame rate: `n` or `n/m`, both at least 1 and below 2^32 (ISO/IEC 23009-1, 5.3.7.2).
///
/// `None` exactly where the text isn't of that form.
pub fn read_frame_rate(text: &str) -> Option<Ratio>
    ensures { option_map (λ rate. (rate.n, rate.m)) result ≡ frame_rate_between text.now }
{
    match text.split_once('/') {
        None => Some(Ratio {
            n: read_part(text)?,
            m: 1,
        }),
        Some((n, m)) => {
            let n = read_part(n)?;
            let m = read_part(m)?;
            Some(Ratio { n, m })
        }
    }
}

fn read_part(text: &str) -> Option<u32>
    ensures { result ≡ kept_if (is_between 1 (2 ^ 32)) (numeral_of text.now) }
{
    let part = u32::try_from(read_numeral(text)?).ok()?;
    (0 < part).then_some(part)
}
