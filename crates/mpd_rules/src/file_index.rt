// Files with a `sidx`.
ghost use Rattle.std.specs.Prelude.{◌≡◌, IfSome, None, Some, if◌then◌else◌, option_map};
ghost use Rattle.mpd_rules.specs.Ranges.{IsSomeBytes};

use mpd_levels::{IndexRow, InitView};
use url_parts::Range;

/// The byte ranges of a file's `sidx` and init segment (ISO/IEC 23009-1, 5.3.9.2).
#[derive(Drop)]
pub struct FileIndex {
    range: Range,
    row: IndexRow,
    ghost told: { row.range ≡ Some range },
    ghost bytes: { IsSomeBytes range },
}

impl FileIndex {
    ghost use Rattle.mpd_levels.specs.Indexed.{lacks_index};
    ghost use Rattle.mpd_levels.specs.Shown.{initialization_shown};

    /// `None` exactly where something is missing.
    pub(crate) fn of(row: IndexRow) -> Option<FileIndex>
        requires { IfSome row.range IsSomeBytes }
        ensures { option_map (λ index. index.row) result ≡ (if lacks_index row then None else Some row) }
    {
        let range = row.range()?;
        if row.lacks_index() {
            return None;
        }
        Some(FileIndex { range, row })
    }

    /// The byte range of the `sidx`.
    pub(crate) fn range(&self) -> Range
        ensures told { self.now.row.range ≡ Some result }
        ensures bytes { IsSomeBytes result }
    {
        self.range
    }

    /// Its Initialization.
    pub(crate) fn initialization(&self) -> Option<InitView<'_>>
        ensures { option_map initialization_shown result ≡ self.now.row.initialization }
    {
        self.row.initialization()
    }
}
