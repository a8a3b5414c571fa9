// The elements that are read.
ghost use Rattle.std.specs.Prelude.{◌≡◌, map};
ghost use Rattle.mpd_profile.specs.Elements as spec;
ghost use Rattle.mpd_profile.specs.Rows.{shown};
ghost use Rattle.mpd_profile.specs.declared.listed.Addressing.TheVariants.{Segments};
ghost use Rattle.mpd_profile.specs.declared.listed.Listed.TheVariants.{S};

use crate::tables;
use crate::value::Value;

/// How an MPD's segments are addressed.
#[derive(Clone, Copy)]
pub enum Addressing {
    /// One by one, by a SegmentTemplate or a SegmentList.
    Segments,
    /// By the `sidx` of each file, whose byte range SegmentBase gives.
    Index,
}

/// An element of ISO/IEC 23009-1, 5.3 that is read, by its name and its parent.
#[derive(Clone, Copy, PartialEq, Eq)]
pub enum Listed {
    /// The root, 5.3.1.
    Mpd,
    /// 5.6.
    BaseUrl,
    /// 5.3.2.
    Period,
    /// 5.3.3.
    AdaptationSet,
    /// 5.3.5.
    Representation,
    /// 5.3.9.4.
    SegmentTemplate,
    /// 5.3.9.3.
    SegmentList,
    /// 5.3.9.2.
    SegmentBase,
    /// 5.3.9.2.
    Initialization,
    /// 5.3.9.6.
    SegmentTimeline,
    /// 5.3.9.6.
    S,
    /// 5.3.9.3.
    SegmentUrl,
}

impl Listed {
    /// The kind of an element of that name in this parent. `None` is ignored.
    pub fn child(self, name: &str, addressing: Addressing) -> Option<Listed>
        ensures { result ≡ spec.child_of addressing self name.now }
    {
        named_in(self.children(addressing), name)
    }

    /// The value type of an attribute of that name of this element. `None` is ignored.
    pub fn attribute(self, name: &str, addressing: Addressing) -> Option<Value>
        ensures { result ≡ spec.value_of addressing self name.now }
    {
        match self {
            Listed::S => run_value(name),
            _ => named_in(self.attributes(addressing), name),
        }
    }

    fn children(self, addressing: Addressing) -> &'static [(&'static str, Listed)]
        ensures { map shown result.now ≡ spec.children_of addressing self }
    {
        match (self, addressing) {
            (Listed::Mpd, _) => &tables::IN_MPD,
            (Listed::Period, _) => &tables::IN_PERIOD,
            (Listed::AdaptationSet, _) => &tables::IN_SET,
            (Listed::Representation, _) => &tables::IN_REPRESENTATION,
            (Listed::SegmentTemplate, _) => &tables::IN_TEMPLATE,
            (Listed::SegmentList, _) => &tables::IN_LIST,
            (Listed::SegmentBase, Addressing::Index) => &tables::IN_BASE,
            (Listed::SegmentTimeline, _) => &tables::IN_TIMELINE,
            _ => &[],
        }
    }

    fn attributes(self, addressing: Addressing) -> &'static [(&'static str, Value)]
        ensures { map shown result.now ≡ spec.attributes_of addressing self }
    {
        match (self, addressing) {
            (Listed::Mpd, _) => &tables::OF_MPD,
            (Listed::Period, _) => &tables::OF_PERIOD,
            (Listed::AdaptationSet, _) => &tables::OF_SET,
            (Listed::Representation, _) => &tables::OF_REPRESENTATION,
            (Listed::SegmentTemplate, _) => &tables::OF_TEMPLATE,
            (Listed::SegmentList, _) => &tables::OF_LIST,
            (Listed::SegmentBase, Addressing::Index) => &tables::OF_BASE,
            (Listed::Initialization, _) => &tables::OF_INITIALIZATION,
            (Listed::S, _) => &tables::OF_S,
            (Listed::SegmentUrl, _) => &tables::OF_SEGMENT_URL,
            _ => &[],
        }
    }
}

/// The value type of an attribute of an S, the most frequent element of most MPDs.
fn run_value(name: &str) -> Option<Value>
    ensures { result ≡ spec.value_of Segments S name.now }
{
    if "t" == name || "d" == name {
        Some(Value::Number(0, 1 << 63))
    } else if "r" == name {
        Some(Value::Signed)
    } else {
        None
    }
}

/// The entry of a name in a table: that of the first row that has it.
pub(crate) fn named_in<T: Copy>(rows: &[(&'static str, T)], name: &str) -> Option<T>
    ensures { result ≡ spec.named_in (map shown rows.now) name.now }
{
    let row = rows.iter().find(|row| row.0 == name)?;
    Some(row.1)
}
