// Copies of playlists, which share the texts of their URLs.
ghost use Rattle.std.specs.Prelude.{◌≡◌, IfOk};

use crate::{Media, MediaList, MediaSegment};
use bridge_io::NoMemory;
use std::alloc::Global;
use url_parts::Part;

impl Media {
    /// The same playlist again. It allocates memory for its segments, but not for their URLs.
    pub fn copy(&self, alloc: Global) -> Result<Media, NoMemory>
        ensures { IfOk result (λ copy. copy ≡ self.now) }
    {
        let segments = copy_of_all(alloc, self.segments.as_slice())?;
        Ok(Media {
            target: self.target,
            sequence: self.sequence,
            ended: self.ended,
            segments,
        })
    }
}

impl MediaSegment {
    /// The same segment again. It allocates nothing.
    pub fn copy(&self, alloc: Global) -> Result<MediaSegment, NoMemory>
        ensures { IfOk result (λ copy. copy ≡ self.now) }
    {
        let address = self.address.copy(alloc)?;
        let map = copy_of_map(alloc, &self.map)?;
        Ok(MediaSegment {
            address,
            range: self.range,
            map,
            duration: self.duration,
            section: self.section,
        })
    }
}

pub(crate) fn copy_of_map(alloc: Global, map: &Option<Part>) -> Result<Option<Part>, NoMemory>
    ensures { IfOk result (λ copy. copy ≡ map.now) }
{
    match map {
        Some(part) => Ok(Some(part.copy(alloc)?)),
        None => Ok(None),
    }
}

fn copy_of_all(alloc: Global, segments: &[MediaSegment]) -> Result<MediaList, NoMemory>
    ensures { IfOk result (λ copies. copies ≡ segments.now) }
{
    let mut copies = Vec::with_capacity(alloc, segments.len())?;
    for segment in segments {
        copies.push(segment.copy(alloc)?)?;
    }
    Ok(MediaList::from(copies))
}
