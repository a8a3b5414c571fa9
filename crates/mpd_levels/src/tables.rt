// What is stored once for all Representations.
ghost use Rattle.std.specs.Prelude.{◌≡◌, [], IfOk, Some, codes, map, option_and_then, option_map, slice_get};
ghost use Rattle.mpd_tree.specs.Nodes.{element_of};
ghost use Rattle.mpd_tree.specs.Views.{attribute_shown};
ghost use Rattle.mpd_levels.specs.Fits.{FitsRun, FitsTimeline};
ghost use Rattle.mpd_levels.specs.Segments.{run_of, runs_of, url_of, urls_in};
ghost use Rattle.mpd_levels.specs.Readings.{children_named, value_if};
ghost use Rattle.mpd_profile.specs.Heads.{or_else, value_named};
ghost use Rattle.mpd_values.specs.Numbers.{signed_64_of};
ghost use Rattle.mpd_levels.specs.Shown as spec;

use crate::readings::{count_named, number_in, range};
use bridge_io::{NoMemory, Sequence, Text};
use mpd_entries::{RefList, RefPart, SEntry, SList, SharedNames};
use mpd_profile::value_named;
use mpd_tree::{Attr, Node};
use mpd_values::read_signed;
use std::alloc::Global;

/// The timelines and the lists of SegmentURLs of an MPD, each kept once for all Representations that have it.
///
/// What is added keeps its index.
#[derive(Drop)]
pub struct Tables {
    pub(crate) timelines: Sequence<SList>,
    pub(crate) lists: Sequence<SharedNames>,
}

impl Tables {
    /// Empty tables. They allocate nothing.
    pub fn new(alloc: Global) -> Tables
        ensures timelines { spec.timelines_in result ≡ [] }
        ensures lists { spec.lists_in result ≡ [] }
    {
        Tables {
            timelines: Sequence::new(alloc),
            lists: Sequence::new(alloc),
        }
    }

    /// The S elements of the timelines; the index of each is its key.
    pub fn timelines(&self) -> &[SList]
        ensures { result.now ≡ spec.timelines_in self.now }
    {
        self.timelines.as_slice()
    }

    /// The SegmentURLs of a list, by its key.
    pub(crate) fn list(&self, key: usize) -> Option<&SharedNames>
        ensures { option_map (λ names. names.now) result ≡ slice_get (spec.lists_in self.now) key }
    {
        self.lists.get(key)
    }

    /// Stores a timeline, and returns its key.
    pub(crate) fn keep_timeline(&mut self, timeline: SList) -> Result<usize, NoMemory>
        ensures key { IfOk result (λ key. slice_get (spec.timelines_in self.new) key ≡ Some timeline) }
        ensures lists { spec.lists_in self.new ≡ spec.lists_in self.old }
        ensures grows { spec.Grows self.old self.new }
    {
        let key = self.timelines.len();
        self.timelines.push(timeline)?;
        Ok(key)
    }

    /// Stores a list, and returns its key.
    pub(crate) fn keep_list(&mut self, list: SharedNames) -> Result<usize, NoMemory>
        ensures key { IfOk result (λ key. slice_get (spec.lists_in self.new) key ≡ Some list) }
        ensures timelines { spec.timelines_in self.new ≡ spec.timelines_in self.old }
        ensures grows { spec.Grows self.old self.new }
    {
        let key = self.lists.len();
        self.lists.push(list)?;
        Ok(key)
    }
}

/// The entries of a SegmentTimeline.
pub(crate) fn read_timeline(alloc: Global, timeline: Node<'_>) -> Result<SList, NoMemory>
    requires { FitsTimeline (element_of timeline) }
    ensures { IfOk result (λ entries. entries ≡ runs_of (element_of timeline.entry)) }
{
    let mut entries = Vec::with_capacity(alloc, count_named(timeline, "S"))?;
    for child in timeline.children() {
        if child.name() == "S" {
            entries.push(read_run(child))?;
        }
    }
    Ok(SList::from(entries))
}

/// The values of an S that are read.
#[derive(Clone, Copy)]
struct RunTexts<'a> {
    t: Option<&'a str>,
    d: Option<&'a str>,
    r: Option<&'a str>,
}

fn read_run(s: Node<'_>) -> SEntry
    requires { FitsRun (element_of s) }
    ensures { result ≡ run_of (element_of s.entry) }
{
    let texts = run_texts(s);
    SEntry {
        t: number_in(texts.t, 0, 1 << 63),
        d: number_in(texts.d, 0, 1 << 63).unwrap_or(0),
        r: signed_in(texts.r).unwrap_or(0),
    }
}

/// Finds the values by one walk over the attributes.
fn run_texts(s: Node<'_>) -> RunTexts<'_>
    ensures t { option_map (λ text. text.now) result.t ≡ value_named (codes "t") (element_of s.entry).head }
    ensures d { option_map (λ text. text.now) result.d ≡ value_named (codes "d") (element_of s.entry).head }
    ensures r { option_map (λ text. text.now) result.r ≡ value_named (codes "r") (element_of s.entry).head }
{
    let mut t: Option<&str> = None;
    let mut d: Option<&str> = None;
    let mut r: Option<&str> = None;
    for attr in s.attributes() {
        t = or_named(t, attr, "t");
        d = or_named(d, attr, "d");
        r = or_named(r, attr, "r");
    }
    RunTexts { t, d, r }
}

/// What was found before, or otherwise the value of an attribute that has the name.
#[inline(always)]
fn or_named<'a>(found: Option<&'a str>, attr: Attr<'a>, name: &str) -> Option<&'a str>
    ensures { option_map (λ text. text.now) result ≡ or_else (option_map (λ text. text.now) found.entry)
        (value_if name.now (attribute_shown attr.entry)) }
{
    match found {
        Some(text) => Some(text),
        None => value_if(attr, name),
    }
}

#[inline(always)]
fn value_if<'a>(attr: Attr<'a>, name: &str) -> Option<&'a str>
    ensures { option_map (λ text. text.now) result ≡ value_if name.now (attribute_shown attr.entry) }
{
    if attr.name == name {
        Some(attr.value)
    } else {
        None
    }
}

fn signed_in(text: Option<&str>) -> Option<i64>
    ensures { result ≡ option_and_then signed_64_of (option_map (λ text. text.now) text.entry) }
{
    read_signed(text?)
}

/// The SegmentURLs of an element; `None` exactly where it has none.
pub(crate) fn read_urls(alloc: Global, list: Node<'_>) -> Result<Option<RefList>, NoMemory>
    ensures { IfOk result (λ urls. urls ≡ urls_in (element_of list.entry)) }
{
    let urls = read_all_urls(alloc, list)?;
    if urls.is_empty() {
        return Ok(None);
    }
    Ok(Some(urls))
}

fn read_all_urls(alloc: Global, list: Node<'_>) -> Result<RefList, NoMemory>
    ensures { IfOk result (λ urls. urls ≡ map url_of (children_named (codes "SegmentURL") (element_of list.entry))) }
{
    let mut urls = Vec::with_capacity(alloc, count_named(list, "SegmentURL"))?;
    for child in list.children() {
        if child.name() == "SegmentURL" {
            urls.push(read_url(alloc, child)?)?;
        }
    }
    Ok(RefList::from(urls))
}

fn read_url(alloc: Global, url: Node<'_>) -> Result<RefPart, NoMemory>
    ensures { IfOk result (λ row. row ≡ url_of (element_of url.entry)) }
{
    let reference = read_media(alloc, url)?;
    Ok(RefPart {
        reference,
        range: range(url, "mediaRange"),
    })
}

fn read_media(alloc: Global, url: Node<'_>) -> Result<Option<Text>, NoMemory>
    ensures { IfOk result (λ media. media ≡ value_named (codes "media") (element_of url.entry).head) }
{
    match value_named(url, "media") {
        Some(text) => Ok(Some(Text::copy_of(alloc, text)?)),
        None => Ok(None),
    }
}
