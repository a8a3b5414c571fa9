// The law of printed trees.
ghost use Rattle.mpd_tree.specs.Placed.{PrintedAreRead};

use crate::one_reading;

/// A printed element is read back as the same element: the same elements in the same order with the same attributes, at
/// their positions, and no text except the line feeds that are printed. Provided that names are valid and differ within a
/// tag, values have no character below U+0020, and no element is nested inside more than 31 others (XML 1.0, 2.1, 2.4, 3.1
/// and 3.3.3).
pub fn printed_trees_are_read()
    ensures { PrintedAreRead }
{
    one_reading();
}
