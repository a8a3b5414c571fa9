// The order of the ids of Periods.
ghost use Rattle.std.specs.Prelude.{◌≡◌, ◌≤◌, ℕ, List, IfOk, length, map, true, false};
ghost use Rattle.std.specs.List.Sorted.{IsPartitionedBy, IsPartitionPoint};
ghost use Rattle.mpd_rules.specs.Laws.{are_once};
ghost use Rattle.live_meaning.specs.Known.{ids_of};
ghost use Rattle.live_judge.specs.Known.{known_shown};
ghost use Rattle.live_judge.specs.Order.{IsOrder, IsOrderOf, is_before};

use crate::KnownPeriod;
use bridge_io::NoMemory;
use std::alloc::Global;

/// How many ids come before an id, which is its index in their order.
pub(crate) fn rank_of(periods: &[KnownPeriod], order: &[usize], id: &str) -> usize
    requires { (id : List ℕ) → IsPartitionedBy (is_before (ids_of (map known_shown periods.now)) id) order.now }
    ensures within { result ≤ length order.now }
    ensures rank { IsPartitionPoint (λ place. is_before (ids_of (map known_shown periods.now)) id.now place ≡ true)
        (λ place. is_before (ids_of (map known_shown periods.now)) id.now place ≡ false) order.now result }
{
    order.partition_point(|place| is_before(periods, *place, id))
}

/// Whether the id at an index comes before an id.
fn is_before(periods: &[KnownPeriod], place: usize, id: &str) -> bool
    ensures { result ≡ is_before (ids_of (map known_shown periods.now)) id.now place }
{
    match periods.get(place) {
        Some(period) => period.id.as_str().cmp(id).is_lt(),
        None => false,
    }
}

/// The order of all Periods, by that of the first ones.
pub(crate) fn order_with(
    alloc: Global,
    periods: &[KnownPeriod],
    count: usize,
    former: &[usize],
) -> Result<Vec<usize>, NoMemory>
    requires once { are_once (ids_of (map known_shown periods.now)) ≡ true }
    requires within { count ≤ length periods.now }
    requires former { IsOrderOf (ids_of (map known_shown periods.now)) count former.now }
    ensures { IfOk result (λ order. IsOrder (ids_of (map known_shown periods.now)) order.items) }
{
    let mut order = Vec::with_capacity(alloc, periods.len())?;
    order.extend_from_slice(former)?;
    for place in count..periods.len() {
        let rank = rank_of(periods, &order, periods[place].id.as_str());
        order.insert(rank, place)?;
    }
    Ok(order)
}
