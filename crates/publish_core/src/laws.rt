//! Laws of publications. The functions do nothing: what they ensure is the law.
ghost use Rattle.publish_core.specs.Laws.{CalmRunsAreDecided, PublicationsAreServed, PublicationsWriteLists};
ghost use Rattle.publish_core.specs.Laws.{FirstAgainIsUnchanged, FirstFoldersAreRead, JobsAreProper};
ghost use Rattle.publish_core.specs.Laws.{PublicationsAgainAreUnchanged, RunsAgainChangeNothing, ServedFoldersAreRead};

use bridge_io::Store;
use hls_media::what_is_read_is_bounded;
use laws_of_mpds::what_is_read_has_addresses;
use laws_of_publishing::a_publication_again_changes_nothing;
use laws_of_taken_texts::{published_texts_are_taken, read_texts_are_taken};

/// Where something is served, the playlists of both folders are such as the laws of lists speak of (`laws_of_publishing`), and
/// what is written are texts of lists that take the served ones' places, and the master last where its text is another one. So
/// what takes a served playlist's place is a valid update, keeps what stays listed, appends the last segments
/// of the new one, and has no silent gap.
pub fn publications_write_lists()
    ensures { PublicationsWriteLists }
{
    what_is_read_is_bounded();
}

/// Where something is served, and all files of a publication took their places, each served track's file is read without a fault,
/// as the list that the track's became, and the served master has the new one's bytes.
pub fn publications_are_served()
    ensures { PublicationsAreServed }
{
    what_is_read_is_bounded();
    what_is_read_has_addresses();
    read_texts_are_taken();
    published_texts_are_taken();
}

/// Where something is served, and all files of a publication took their places, the served folder is read without a fault: the new
/// master, and the served tracks with the lists that theirs became.
pub fn served_folders_are_read()
    ensures { ServedFoldersAreRead }
{
    what_is_read_has_addresses();
    publications_are_served();
}

/// Where something is served, and all files of a publication took their places, the same job finds nothing new: no file is written,
/// or, where all served playlists are ended then, it is rejected.
pub fn publications_again_are_unchanged()
    ensures { PublicationsAgainAreUnchanged }
{
    what_is_read_has_addresses();
    served_folders_are_read();
    a_publication_again_changes_nothing();
}

/// After a first publication the served folder is read without a fault: the new master, and the new tracks with the playlists that
/// are served first.
pub fn first_folders_are_read()
    ensures { FirstFoldersAreRead }
{
    what_is_read_is_bounded();
    what_is_read_has_addresses();
    read_texts_are_taken();
}

/// After a first publication the same job finds nothing new: no file is written, or, where all served playlists are ended, it is
/// rejected.
pub fn a_first_publication_again_is_unchanged()
    ensures { FirstAgainIsUnchanged }
{
    what_is_read_is_bounded();
    what_is_read_has_addresses();
    first_folders_are_read();
}

/// The two folders of a job that words give differ, and its target duration is below 2^31.
pub fn jobs_are_proper()
    ensures { JobsAreProper }
{}

/// A run of a job in which no count of faults rose is done, with all files in their places, or rejected, with none, or out of
/// memory.
pub fn calm_runs_are_decided<F: Store>()
    ensures { CalmRunsAreDecided F.Store }
{}

/// Where a run is done, and a run of the same words begins with the files that it left, and no count of faults rises in that, no
/// file is changed, and the report says `unchanged`, or, where all served playlists are ended, that the new master is rejected, or
/// memory runs out.
pub fn runs_again_change_nothing<F: Store>()
    ensures { RunsAgainChangeNothing F.Store }
{
    jobs_are_proper();
    served_folders_are_read();
    publications_again_are_unchanged();
    first_folders_are_read();
    a_first_publication_again_is_unchanged();
}
