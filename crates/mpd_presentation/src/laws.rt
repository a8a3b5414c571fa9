//! Laws of the definitions. The functions do nothing: what they ensure is the law.

ghost use Rattle.mpd_presentation.specs.Listable.{VerifiedAreListable};
ghost use Rattle.mpd_presentation.specs.MeaningLaws.{PresentedAreMeant, TextsAreMeant};
ghost use Rattle.mpd_presentation.specs.Origins.{StaticAreFinished};
ghost use Rattle.mpd_presentation.specs.PresentedLaws.{AreAlwaysInPace, PresentedAreFew, PresentedAreFollowed};
ghost use Rattle.mpd_presentation.specs.PresentedLaws.{PresentedAreInPace, SectionsArePeriods};

use timeline::closed_ends;

/// The presentation of an MPD means what the MPD means, which is what its text means.
pub fn presentations_mean_their_mpd()
    ensures mpd { PresentedAreMeant }
    ensures text { TextsAreMeant }
{}

/// The presentation of a static MPD is VOD.
pub fn static_mpds_are_finished()
    ensures { StaticAreFinished }
{}

/// What holds for each presentation of an MPD, static or dynamic. It has at most 1,000 sections, which are the MPD's
/// Periods, and 200 tracks. It is followed where the MPD is dynamic. Where the segments up to open ends break no limit, at
/// the presentation's time or another one, the ends of those that are listed don't fall, and are near one another.
pub fn presentations_show_their_mpd()
    ensures few { PresentedAreFew }
    ensures followed { PresentedAreFollowed }
    ensures sections { SectionsArePeriods }
    ensures pace { PresentedAreInPace }
    ensures always { AreAlwaysInPace }
{}

/// The segments of a verified presentation of a static MPD can be listed: those of each track in each section have an
/// end, and each listed one has a URL.
pub fn verified_mpds_can_be_listed()
    ensures { VerifiedAreListable }
{
    closed_ends();
}
