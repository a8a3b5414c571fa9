// Reading bytes into a tree.
ghost use Rattle.std.specs.Prelude.{◌≡◌, ◌++◌, [], All, IfOk, IfErr, IfSome, MatchResult, OnOk, Ok, Err};
ghost use Rattle.std.specs.String.{string_bytes};
ghost use Rattle.bridge_io.specs.Answer.{Gives};
ghost use Rattle.mpd_tree.specs.Faults.{HasFault, refusal};
ghost use Rattle.mpd_tree.specs.Grammar.{IsClean, Spells, document};
ghost use Rattle.mpd_text.specs.Keeping.{ShowsRoot, shown_in};
ghost use Rattle.mpd_tree.specs.Meaning.{reading_of};
ghost use Rattle.mpd_tree.specs.Nodes.{root_in, root_of};
ghost use Rattle.mpd_tree.specs.Reading.{fault_in};
ghost use Rattle.mpd_tree.specs.Roots.{HasOneRoot};
ghost use Rattle.mpd_tree.specs.Rows.{IsAttributeKept, IsElementKept};
ghost use Rattle.mpd_tree.specs.Trees.{Element};

use crate::clean::clean;
use crate::content::root_of;
use crate::kept::Kept;
use crate::places::told;
use crate::prolog::{after_beginning, after_misc, expect_end};
use bridge_io::Bytes;
use mpd_tree::{Rows, Stop, TextFault, Tree};
use std::alloc::Global;

/// The tree that the bytes spell as an XML 1.0 text in UTF-8, without document type, CDATA section and processing
/// instruction, with elements nested at most 32 deep.
///
/// It accepts these constructs that XML 1.0 forbids: `]]>` in content (2.4), a comment that ends in `--->` (2.5), names
/// with any character from U+0080 on at any position (2.3), and any declaration (2.8): its content isn't read, so an
/// encoding that is declared there has no effect.
///
/// # Errors
///
/// The one fault of the bytes, with its position, in the order of [`TextFault`]; [`TextFault::Depth`] is that of an
/// element nested inside 32 others. [`TextFault::Memory`] where memory runs out, or a position in the text or a count
/// of its elements or attributes isn't below 2^32.
pub fn read_tree(alloc: Global, bytes: &[u8]) -> Result<Tree, TextFault>
    ensures reading { Gives root_of refusal result (reading_of bytes.now) }
    ensures tree { IfOk result (λ tree. Spells (root_of tree) bytes.now) }
    ensures fault { IfErr result (λ fault. IfSome (refusal fault) (HasFault bytes.now)) }
{
    let bytes = Vec::from_slice(alloc, bytes)?;
    tree_from_bytes(alloc, Bytes::from(bytes))
}

/// The same as [`read_tree`], but moves the bytes into the tree instead of copying them.
///
/// # Errors
///
/// As those of [`read_tree`].
pub fn tree_from_bytes(alloc: Global, bytes: Bytes) -> Result<Tree, TextFault>
    ensures reading { Gives root_of refusal result (reading_of bytes) }
    ensures tree { IfOk result (λ tree. Spells (root_of tree) bytes) }
    ensures fault { IfErr result (λ fault. IfSome (refusal fault) (HasFault bytes)) }
{
    let source = clean(bytes)?;
    let rows = read_text(alloc, source.as_str())?;
    let tree = Tree::of_rows(alloc, source, rows)?;
    Ok(tree)
}

/// The rows of a text that has only allowed characters.
fn read_text(alloc: Global, text: &str) -> Result<Rows, TextFault>
    requires { IsClean text.now }
    ensures reading { Gives (root_in text.now) refusal result (reading_of text.now) }
    ensures has_one_root { IfOk result (λ rows. HasOneRoot text.now (string_bytes rows.read) rows.elements rows.attributes.items) }
    ensures elements_kept { IfOk result (λ rows. All (IsElementKept text.now (text.now ++ string_bytes rows.read)) rows.elements) }
    ensures attributes_kept { IfOk result (λ rows. All (IsAttributeKept text.now (text.now ++ string_bytes rows.read))
        rows.attributes.items) }
{
    let mut kept = Kept::new(alloc, text);
    match read_document(&mut kept, text.as_bytes()) {
        Ok(()) => Ok(kept.finish()),
        Err(stop) => Err(told(text.as_bytes(), stop)),
    }
}

/// Reads a whole text.
#[tactic(auto, unfolding(mpd_tree::specs::Grammar::document))]
fn read_document<'a>(kept: &mut Kept<'a>, bytes: &'a [u8]) -> Result<(), Stop>
    requires whole { kept.old.source.now ≡ bytes.now }
    requires first { shown_in kept.old ≡ [] }
    ensures read { MatchResult result
        (λ _. (root : Element) × ((document bytes.now).read ≡ Ok root) × ShowsRoot kept.new root)
        (λ e. IfSome (fault_in e) (λ f. (document bytes.now).read ≡ Err f)) }
    ensures same { OnOk result (kept.new.source.now ≡ kept.old.source.now) }
{
    let rest = after_beginning(bytes)?;
    let rest = after_misc(rest)?;
    let rest = root_of(kept, rest)?;
    expect_end(rest)?;
    Ok(())
}
