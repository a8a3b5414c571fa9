//! Laws of URLs.
ghost use Rattle.std.specs.Prelude.{◌≡◌, ℕ, List, ◌++◌, Ok, Some};
ghost use Rattle.url_parts.specs.Addresses.{resolve, beside, folder_of, unless_long, without_tail, local_name_of};
ghost use Rattle.url_parts.specs.Laws.{NeedsNoBase, IsGivenAgain, IsGivenInFolder, GoesOn};
ghost use Rattle.url_parts.specs.Spelling.{StandsFor, place_of, playlist_url, spelled};

use crate::{Address, Base};
use bridge_io::Name;

/// The URL Standard reads a reference that begins with `http://` or `https://` alike with any base and without one.
#[tactic(auto, using(crate::proofs::Absolute::needs_no_base))]
pub fn absolute_reference(reference: &str)
    ensures { NeedsNoBase reference.now }
{
    let _ = reference;
}

/// A URL that a reference resolved to resolves to itself against each base.
pub fn resolved_address(base: &str, reference: &str)
    ensures { (address : List ℕ) → resolve base.now reference.now ≡ Ok address → IsGivenAgain address }
{
    let _ = base;
    let _ = reference;
}

/// The URL of a name beside a base is the one that the name resolves to as a reference, and resolves to itself against
/// each base.
pub fn name_address(base: &Base, name: &Name)
    ensures reference { beside base.now name.now ≡ resolve base.now name.now }
    ensures again { (address : List ℕ) → beside base.now name.now ≡ Ok address → IsGivenAgain address }
{
    let _ = base.as_str();
    let _ = name.as_str();
}

/// The URL of a name beside a base is the folder's text and the name, and is rejected only for its length.
#[tactic(auto, using(crate::proofs::Relative::beside_name))]
pub fn name_beside(base: &Base, name: &Name)
    ensures { beside base.now name.now ≡ unless_long (folder_of base.now ++ name.now) }
{
    let _ = base.as_str();
    let _ = name.as_str();
}

/// A text that is the folder of a URL followed by a name resolves to itself against each base, and is rejected only for
/// its length.
#[tactic(auto, using(crate::proofs::Neighbours::given_in))]
pub fn name_in_folder(address: &Address, text: &str)
    ensures { IsGivenInFolder address.now text.now }
{
    let _ = address.as_str();
    let _ = text;
}

/// A name that is found under a base whose text is its own folder gives the URL without query and fragment.
pub fn name_of_local_file(folder: &Base, address: &Address)
    ensures { (name : List ℕ) → folder_of folder.now ≡ folder.now → local_name_of folder.now address.now ≡ Some name
        → resolve folder.now name ≡ Ok (without_tail address.now) }
{
    let _ = folder.as_str();
    let _ = address.as_str();
}

/// References that are resolved one after another start from what those before them gave.
#[tactic(auto, using(crate::proofs::Chains::goes_on))]
pub fn one_more_reference(reference: &str)
    ensures { GoesOn reference.now }
{
    let _ = reference;
}

/// What is written for a URL beside a playlist stands for the URL there: it is the line of a URI, and resolves to the URL
/// against the playlist's URL. A URL that is written as it is stands for itself in each playlist.
pub fn spelled_address(base: &str, out: &str, file: &str, address: &Address)
    ensures beside { StandsFor (playlist_url base.now out.now file.now) address.now
        (spelled (place_of base.now out.now file.now) address.now) }
    ensures absolute { (playlist : List ℕ) → StandsFor playlist address.now address.now }
{
    let _ = base;
    let _ = out;
    let _ = file;
    let _ = address.as_str();
}
