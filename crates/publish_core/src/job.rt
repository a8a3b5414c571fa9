// What is to be published.
use bridge_io::Name;
use publish_law::Options;

/// What is to be published, and where.
#[derive(Drop)]
pub struct PublishJob {
    /// The folder of a run.
    pub new: Name,
    /// The folder that a server serves.
    pub served: Name,
    /// The least target duration of a first publication, in seconds (RFC 8216, 4.3.3.1).
    pub target: u64,
    /// What the publication may do.
    pub options: Options,
}
