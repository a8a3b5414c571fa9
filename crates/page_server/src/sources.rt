// Whether two readings are the same.
ghost use Rattle.std.specs.Prelude.{◌≡◌};
ghost use Rattle.page_server.specs.Sources as spec;

use crate::SourceFile;

/// Whether the same files with the same bytes were read, in the same order.
pub fn are_same(first: &[SourceFile], second: &[SourceFile]) -> bool
    ensures { result ≡ spec.are_same first.now second.now }
{
    if first.len() != second.len() {
        return false;
    }
    for (place, file) in first.iter().enumerate() {
        if !is_same(file, &second[place]) {
            return false;
        }
    }
    true
}

fn is_same(first: &SourceFile, second: &SourceFile) -> bool
    ensures { result ≡ spec.is_same first.now second.now }
{
    first.name.as_str() == second.name.as_str() && first.bytes.as_slice() == second.bytes.as_slice()
}
