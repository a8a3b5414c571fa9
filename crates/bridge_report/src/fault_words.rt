// The error code of the report for each fault: the layer's word, the number and the name.
ghost use Rattle.std.specs.Prelude.{◌≡◌};
ghost use Rattle.bridge_report.specs.Words as spec;

use crate::update_fault::UpdateFault;
use bridge_jobs::FrameFault;
use hls_lines::LineFault;
use hls_master::MasterFault;
use hls_media::MediaFault;
use layer_faults::{HlsFault, LiveFault};
use mpd_profile::RuleFault;
use mpd_tree::TextFault;
use presentation::PresentationFault;
use template_ids::TemplateFault;
use timeline::TimeFault;
use url_parts::UrlFault;

/// That of a text's fault. Empty for out of memory.
pub fn text_words(fault: TextFault) -> &'static str
    ensures { result.now ≡ spec.text_words fault }
{
    match fault {
        TextFault::NotUtf8(_) => "text 1 NotUtf8",
        TextFault::BadChar(_) => "text 2 BadChar",
        TextFault::Cut(_) => "text 3 Cut",
        TextFault::Syntax(_) => "text 4 Syntax",
        TextFault::TagMismatch(_) => "text 5 TagMismatch",
        TextFault::DoubleAttribute(_) => "text 6 DoubleAttribute",
        TextFault::Entity(_) => "text 7 Entity",
        TextFault::Doctype(_) => "text 8 Doctype",
        TextFault::Cdata(_) => "text 9 Cdata",
        TextFault::Instruction(_) => "text 10 Instruction",
        TextFault::Depth(_) => "text 11 Depth",
        TextFault::Memory => "",
    }
}

/// That of a fault against the rules of an MPD. Empty for out of memory.
pub fn rule_words(fault: RuleFault) -> &'static str
    ensures { result.now ≡ spec.rule_words fault }
{
    match fault {
        RuleFault::Root(_) => "rules 1 Root",
        RuleFault::Namespace(_) => "rules 2 Namespace",
        RuleFault::Missing(_) => "rules 3 Missing",
        RuleFault::Value(_) => "rules 4 Value",
        RuleFault::NoStart(_) => "rules 5 NoStart",
        RuleFault::PeriodOrder(_) => "rules 6 PeriodOrder",
        RuleFault::Encryption(_) => "rules 7 Encryption",
        RuleFault::Events(_) => "rules 8 Events",
        RuleFault::LowLatency(_) => "rules 9 LowLatency",
        RuleFault::Remote(_) => "rules 10 Remote",
        RuleFault::Essential(_) => "rules 11 Essential",
        RuleFault::Unsupported(_) => "rules 12 Unsupported",
        RuleFault::IndexNeeded(_) => "rules 13 IndexNeeded",
        RuleFault::NoTracks(_) => "rules 14 NoTracks",
        RuleFault::Memory => "",
    }
}

/// That of a presentation's fault, or of the inner layer's fault. Empty for out of memory.
pub fn presentation_words(fault: PresentationFault) -> &'static str
    ensures { result.now ≡ spec.presentation_words fault }
{
    match fault {
        PresentationFault::PeriodsDiffer(_) => "presentation 1 PeriodsDiffer",
        PresentationFault::Limit => "presentation 2 Limit",
        PresentationFault::NoSegments { .. } => "presentation 3 NoSegments",
        PresentationFault::Url(fault, _) => url_words(fault),
        PresentationFault::Template(fault, _) => template_words(fault),
        PresentationFault::Timeline(fault, _) => time_words(fault),
        PresentationFault::NeedsNow => "presentation 7 NeedsNow",
        PresentationFault::Memory => "",
    }
}

fn url_words(fault: UrlFault) -> &'static str
    ensures { result.now ≡ spec.url_words fault }
{
    match fault {
        UrlFault::Refused => "url 1 Refused",
        UrlFault::Scheme => "url 2 Scheme",
        UrlFault::TooLong => "url 3 TooLong",
        UrlFault::Memory => "",
    }
}

fn template_words(fault: TemplateFault) -> &'static str
    ensures { result.now ≡ spec.template_words fault }
{
    match fault {
        TemplateFault::LoneDollar => "template 1 LoneDollar",
        TemplateFault::Unknown => "template 2 Unknown",
        TemplateFault::Width => "template 3 Width",
        TemplateFault::Both => "template 4 Both",
        TemplateFault::SubNumber => "template 5 SubNumber",
        TemplateFault::Memory => "",
    }
}

fn time_words(fault: TimeFault) -> &'static str
    ensures { result.now ≡ spec.time_words fault }
{
    match fault {
        TimeFault::ZeroDuration => "timeline 1 ZeroDuration",
        TimeFault::Range => "timeline 2 Range",
        TimeFault::NoEnd => "timeline 3 NoEnd",
        TimeFault::Step => "timeline 4 Step",
        TimeFault::ListLength => "timeline 5 ListLength",
        TimeFault::TimeWithoutTimeline => "timeline 6 TimeWithoutTimeline",
        TimeFault::Memory => "",
    }
}

fn line_words(fault: LineFault) -> &'static str
    ensures { result.now ≡ spec.line_words fault }
{
    match fault {
        LineFault::NotUtf8(_) => "line 1 NotUtf8",
        LineFault::BadChar(_) => "line 2 BadChar",
        LineFault::Header(_) => "line 3 Header",
        LineFault::Attribute(_) => "line 4 Attribute",
        LineFault::DoubleAttribute(_) => "line 5 DoubleAttribute",
        LineFault::Memory => "",
    }
}

/// That of a media playlist's fault, or of the inner layer's fault. Empty for out of memory.
pub fn media_words(fault: MediaFault) -> &'static str
    ensures { result.now ≡ spec.media_words fault }
{
    match fault {
        MediaFault::Line(fault) => line_words(fault),
        MediaFault::NoTarget(_) => "media 2 NoTarget",
        MediaFault::Duration(_) => "media 3 Duration",
        MediaFault::LongSegment(_) => "media 4 LongSegment",
        MediaFault::RangeStart(_) => "media 5 RangeStart",
        MediaFault::Limit(_) => "media 6 Limit",
        MediaFault::Encryption(_) => "media 7 Encryption",
        MediaFault::Events(_) => "media 8 Events",
        MediaFault::LowLatency(_) => "media 9 LowLatency",
        MediaFault::Unsupported(_) => "media 10 Unsupported",
        MediaFault::Url(fault, _) => url_words(fault),
        MediaFault::Value(_) => "media 12 Value",
        MediaFault::Misplaced(_) => "media 13 Misplaced",
        MediaFault::Memory => "",
    }
}

/// That of a master playlist's fault, or of the inner layer's fault. Empty for out of memory.
pub fn master_words(fault: MasterFault) -> &'static str
    ensures { result.now ≡ spec.master_words fault }
{
    match fault {
        MasterFault::Line(fault) => line_words(fault),
        MasterFault::Missing(_) => "master 2 Missing",
        MasterFault::Value(_) => "master 3 Value",
        MasterFault::Misplaced(_) => "master 4 Misplaced",
        MasterFault::Url(fault, _) => url_words(fault),
        MasterFault::Muxed(_) => "master 6 Muxed",
        MasterFault::GroupUnknown(_) => "master 7 GroupUnknown",
        MasterFault::SameName(_) => "master 8 SameName",
        MasterFault::Encryption(_) => "master 9 Encryption",
        MasterFault::Unsupported(_) => "master 10 Unsupported",
        MasterFault::NoTracks(_) => "master 11 NoTracks",
        MasterFault::Limit(_) => "master 12 Limit",
        MasterFault::Memory => "",
    }
}

/// That of a fault of playlists that give no presentation. Empty for out of memory.
pub fn hls_words(fault: HlsFault) -> &'static str
    ensures { result.now ≡ spec.hls_words fault }
{
    match fault {
        HlsFault::NotEnded => "hls 1 NotEnded",
        HlsFault::NoMap => "hls 2 NoMap",
        HlsFault::MapChanged => "hls 3 MapChanged",
        HlsFault::ZeroDuration => "hls 4 ZeroDuration",
        HlsFault::SectionsDiffer => "hls 5 SectionsDiffer",
        HlsFault::Limit => "hls 6 Limit",
        HlsFault::NoTracks => "hls 7 NoTracks",
        HlsFault::Memory => "",
    }
}

/// That of a stream's fault. Empty for an I/O error and out of memory.
pub fn frame_words(fault: FrameFault) -> &'static str
    ensures { result.now ≡ spec.frame_words fault }
{
    match fault {
        FrameFault::Header(_) => "frame 1 Header",
        FrameFault::Cut(_) => "frame 2 Cut",
        FrameFault::TooMany(_) => "frame 3 TooMany",
        FrameFault::Fault | FrameFault::Memory => "",
    }
}

/// That of a rule of a followed presentation.
pub fn update_words(fault: UpdateFault) -> &'static str
    ensures { result.now ≡ spec.update_words fault }
{
    match fault {
        UpdateFault::ClockBack => "session 1 ClockBack",
        UpdateFault::Older => "session 2 Older",
        UpdateFault::Changed => "session 3 Changed",
        UpdateFault::Moved => "session 4 Moved",
        UpdateFault::Rewritten => "session 5 Rewritten",
        UpdateFault::Step => "session 6 Step",
        UpdateFault::LongSegment => "session 7 LongSegment",
        UpdateFault::NotDynamic => "session 8 NotDynamic",
        UpdateFault::Ended => "session 9 Ended",
        UpdateFault::Window => "session 10 Window",
        UpdateFault::Uneven => "session 13 Uneven",
    }
}

/// That of a rule of followed playlists. Empty for out of memory.
pub fn live_words(fault: LiveFault) -> &'static str
    ensures { result.now ≡ spec.live_words fault }
{
    match fault {
        LiveFault::Ended => "live 1 Ended",
        LiveFault::ClockBack { .. } => "live 2 ClockBack",
        LiveFault::NoMap => "live 3 NoMap",
        LiveFault::MapChanged => "live 4 MapChanged",
        LiveFault::ZeroDuration => "live 5 ZeroDuration",
        LiveFault::SectionsDiffer => "live 6 SectionsDiffer",
        LiveFault::NoTracks => "live 7 NoTracks",
        LiveFault::Unlawful { .. } => "live 8 Unlawful",
        LiveFault::SectionBack { .. } => "live 11 SectionBack",
        LiveFault::Limit => "live 9 Limit",
        LiveFault::Memory => "",
    }
}
