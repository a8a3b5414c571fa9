// Stored frame rates.
ghost use Rattle.std.specs.Prelude.{◌≡◌};
ghost use Rattle.mpd_profile.specs.Heads.{or_else};

use bridge_io::Ratio;
use std::marker::Model;

/// A frame rate. In a contract it is the pair of its numbers.
#[derive(Drop)]
pub(crate) struct FrameRate {
    ratio: Ratio,
}

impl Model for FrameRate {
    ghost use Rattle.std.specs.Prelude.{ℕ};

    ghost Value = { ℕ × ℕ };

    ghost view = { λ r. (r.ratio.n, r.ratio.m) };
}

impl FrameRate {
    pub(crate) fn of(ratio: Ratio) -> FrameRate
        ensures { result ≡ (ratio.n, ratio.m) }
    {
        FrameRate { ratio }
    }

    pub(crate) fn ratio(&self) -> Ratio
        ensures { (result.n, result.m) ≡ self.now }
    {
        self.ratio
    }
}

/// A frame rate, and where there is none, the other one.
pub(crate) fn rate_over(own: Option<FrameRate>, common: &Option<FrameRate>) -> Option<FrameRate>
    ensures { result ≡ or_else own common.now }
{
    match (own, common) {
        (Some(own), _) => Some(own),
        (None, Some(common)) => Some(FrameRate::of(common.ratio())),
        (None, None) => None,
    }
}
