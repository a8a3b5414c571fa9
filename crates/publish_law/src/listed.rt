// Which segments a playlist has.
ghost use Rattle.std.specs.Prelude.{◌≡◌, IfOk};
ghost use Rattle.std.specs.List.{list_any, suffix_len};
ghost use Rattle.publish_law.specs.Joints.{same_item};
ghost use Rattle.publish_law.specs.Identities as spec;

use bridge_io::NoMemory;
use hls_writer::MediaItem;
use std::alloc::Global;
use std::collections::BTreeSet;
use url_parts::Range;

/// What two segments have in common that are the same one: date, address and range, and those of the init segment.
#[derive(Clone, Copy, PartialEq, Eq, PartialOrd, Ord)]
struct Identity<'a> {
    date: i128,
    address: &'a str,
    range: Option<(u64, u64)>,
    map: &'a str,
    map_range: Option<(u64, u64)>,
}

/// The segments of a playlist. They are found by an ordered search: a playlist may have as many of them as fit.
#[derive(Drop)]
pub(crate) struct Listed<'a> {
    identities: BTreeSet<Identity<'a>>,
}

impl<'a> Listed<'a> {
    pub(crate) fn of(alloc: Global, items: &'a [MediaItem]) -> Result<Listed<'a>, NoMemory>
        ensures { IfOk result (λ listed. spec.AreListed listed items.now) }
    {
        let mut identities = BTreeSet::new(alloc);
        for item in items {
            identities.insert(identity_of(item))?;
        }
        Ok(Listed { identities })
    }

    /// How many segments follow the last one that is the same as one of them: all where there is none.
    pub(crate) fn count_behind(&self, mut items: &'a [MediaItem]) -> usize
        ensures { result ≡ suffix_len (spec.is_new self.now) items.entry.now }
    {
        let all = items.len();
        while let Some((last, earlier)) = items.split_last() {
            if self.has(last) {
                break;
            }
            items = earlier;
        }
        all - items.len()
    }

    /// Whether a segment is the same as one of them.
    fn has(&self, item: &'a MediaItem) -> bool
        ensures { result ≡ spec.has self.now item.now }
    {
        self.identities.contains(&identity_of(item))
    }
}

fn identity_of(item: &MediaItem) -> Identity<'_>
    ensures { spec.IsIdentity item.now result }
{
    Identity {
        date: item.date.0,
        address: item.address.as_str(),
        range: numbers_of(item.range),
        map: item.map.address.as_str(),
        map_range: numbers_of(item.map.range),
    }
}

fn numbers_of(range: Option<Range>) -> Option<(u64, u64)>
    ensures { result ≡ spec.numbers_of range }
{
    let Range { first, count } = range?;
    Some((first, count))
}
