ghost use Rattle.std.specs.Prelude.{◌≡◌, ◌<◌, ◌^◌, refl, unsigned_abs};
ghost use Rattle.std.specs.Ordering.{MatchOrdering, as_partial_cmp, eq_by_cmp};
ghost use Rattle.std.specs.Cmp.{eq_by_cmp_equiv, partial_equiv_from_equiv, partial_order_from_agreeing_total};
ghost use Rattle.exact_time.specs.Time.{IsBefore, IsSame, cross, time_cmp};
ghost use Rattle.exact_time.specs.Tick.{tick_cmp, time_of};
ghost use Rattle.exact_time.specs.TickOrder.{tick_cmp_total};

use crate::tick::Tick;
use std::cmp::Ordering;

/// The order of two times as fractions, by cross products: 1/2 is equal to 2/4.
pub fn compare(a: Tick, b: Tick) -> Ordering
    ensures order { MatchOrdering result (IsBefore (time_of a) (time_of b)) (IsSame (time_of a) (time_of b))
        (IsBefore (time_of b) (time_of a)) }
    ensures value { result ≡ time_cmp (time_of a) (time_of b) }
{
    cross_product(a, b).cmp(&cross_product(b, a))
}

/// The numerator of `a` over the common scale `a.scale * b.scale`.
pub(crate) fn cross_product(a: Tick, b: Tick) -> i128
    ensures exact { result ≡ cross (time_of a) (time_of b) }
    ensures bounded { unsigned_abs result < 2 ^ 96 }
{
    a.n * i128::from(b.scale)
}

/// The order of `compare`.
impl Ord for Tick {
    ghost cmp = { tick_cmp };

    ghost total = { tick_cmp_total };

    ghost matches_partial_cmp = { λ a b. refl };

    ghost matches_eq = { λ a b. refl };

    fn cmp(&self, other: &Tick) -> Ordering {
        compare(*self, *other)
    }
}

impl PartialOrd for Tick {
    ghost partial_cmp = { as_partial_cmp tick_cmp };

    ghost laws = { partial_order_from_agreeing_total tick_cmp tick_cmp_total (λ a b. refl) (λ a b. refl) };

    fn partial_cmp(&self, other: &Tick) -> Option<Ordering> {
        Some(self.cmp(other))
    }
}

/// Ticks are equal where their times are: 1/2 is 2/4.
impl PartialEq for Tick {
    ghost eq = { eq_by_cmp tick_cmp };

    ghost laws = { partial_equiv_from_equiv (eq_by_cmp_equiv tick_cmp_total) };

    fn eq(&self, other: &Tick) -> bool {
        compare(*self, *other).is_eq()
    }
}

impl Eq for Tick {
    ghost laws = { eq_by_cmp_equiv tick_cmp_total };
}
