// How an origin answers.
use bridge_io::Text;
use http::HeaderValue;

/// How an origin answers.
#[derive(Drop)]
pub struct Terms {
    /// The URL of the store's folder.
    pub base: Text,
    /// How caches may use a file: the value of its `Cache-Control` (RFC 9111, 5.2).
    pub cache: HeaderValue,
}
