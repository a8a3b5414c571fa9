// Calls that no run makes: positions after an end, before another segment, and how an offset is returned.
use bridge_io::Text;
use exact_time::{Nanos, Tick};
use std::alloc::Global;
use std::process::Abort;
use std::test::Fail;
use template_ids::Template;
use timeline::*;
use url_parts::Base;

fn end(length: Option<u32>) -> End {
    match length {
        None => End::Unbounded,
        Some(length) => End::At(Nanos(u64::from(length) * 1_000_000_000)),
    }
}

fn tick(seconds: i32) -> Tick {
    Tick {
        n: i128::from(seconds),
        scale: 1,
    }
}

fn template(alloc: Global) -> Result<Names, Fail> {
    let media = MediaTemplate::of(alloc, Template::read(alloc, "v-$Number$.m4s")?)?;
    let id = Text::copy_of(alloc, "v")?;
    Ok(Names::of_template(media, id, 0, Base::of(alloc, "https://h.example/")?))
}

/// Two Representations share a timeline, and each has its own timescale and offset.
#[test]
fn shares(rt: HostRuntime) -> Result<(), Fail> {
    let alloc = rt.alloc();
    let mut list = SList::new(alloc);
    for (t, d, r) in [(None, 4, 1), (Some(10), 6, 0), (None, 2, -1)] {
        list.push(SEntry { t, d, r })?;
    }
    let shared = SharedTimeline::of(alloc, list.as_slice())?;
    for (ticks, offset, count) in [(1, 0, 5u64), (2, 4, 16)] {
        let scale = Scale {
            ticks,
            offset,
            start_number: 1,
        };
        let names = template(alloc)?;
        let runs = Runs::from_shared(alloc, &shared, end(Some(20)), false, scale, names)?;
        assert!(rt; !runs.is_open());
        assert!(rt;
            runs.offset()
                == Tick {
                    n: i128::from(offset),
                    scale: ticks
                }
        );
        let window = Window {
            after: None,
            until: None,
        };
        assert!(rt; runs.count(&window)? == count);
        let cursor = runs.seek_end(tick(5));
        let next = runs.walk(&cursor, &window).next();
        assert!(rt; next.is_some_and(|span| tick(5) < span.end));
        let former = runs.walk(&cursor.back(1), &window).next();
        assert!(rt; former.is_some_and(|span| span.end <= tick(5)));
    }
    Ok(())
}
