// URLs of segments, made one after another.
use crate::filled_names::FilledNames;
use url_parts::Resolver;

/// Makes the URLs of a Representation's segments. The common part of a template's names is computed at the first segment, and
/// the folder of an earlier absolute name is cached, so that a name in it isn't parsed.
#[derive(Drop)]
pub struct Maker {
    pub resolver: Resolver,
    pub filled: Option<FilledNames>,
}

impl Maker {
    ghost use Rattle.std.specs.Prelude.{◌≡◌, None};

    /// No segment was made yet.
    pub fn new() -> Maker
        ensures { result.filled ≡ None }
    {
        Maker {
            resolver: Resolver::new(),
            filled: None,
        }
    }
}
