ghost use Rattle.laws_of_mpds.specs.PresentedFiles.{ListedMeanTheirFiles, PresentedMeanTheirFiles};
ghost use Rattle.laws_of_mpds.specs.PresentedLaws.{PresentedMeanWhatIsTold};

/// A presentation of playlists that were read means what a master playlist's tracks with these playlists mean, with
/// equal times.
pub fn presented_mean_what_is_told()
    ensures { PresentedMeanWhatIsTold }
{}

/// A presentation of a master playlist and of the media playlists that it mentions, which are files under a folder, means
/// what these files mean, with equal times.
pub fn presented_mean_their_files()
    ensures { PresentedMeanTheirFiles }
{}

/// The same where a media playlist may be live, and is taken as if it were ended.
pub fn listed_mean_their_files()
    ensures { ListedMeanTheirFiles }
{}
