//! Laws of what manifests mean. The functions do nothing: what they ensure is the law.
ghost use Rattle.std.specs.Prelude.{◌≡◌, ◌↔◌, ℕ, None};
ghost use Rattle.meaning.specs.Meanings.{Meaning};
ghost use Rattle.meaning.specs.Same.{SameExact, SameTimed, SameFloor, Agrees};
ghost use Rattle.meaning.specs.Differences.{first_difference};

/// Each presentation means the same as itself.
pub fn a_meaning_is_the_same_as_itself()
    ensures { (a : Meaning) → SameExact a a }
{}

/// Presentations that mean the same, with equal times or with times rounded down, agree.
pub fn the_same_agrees()
    ensures exact { (unit : ℕ) (a b : Meaning) → SameExact a b → Agrees unit a b }
    ensures floor { (unit : ℕ) (a b : Meaning) → SameFloor unit a b → Agrees unit a b }
{}

/// Two presentations agree exactly where no first difference is found.
pub fn agreeing_has_no_difference()
    ensures { (unit : ℕ) (a b : Meaning) → Agrees unit a b ↔ (first_difference unit a b ≡ None) }
{}

/// Two presentations that mean the same, with equal and valid times, have the same first difference from a third one.
pub fn the_same_differ_alike()
    ensures exact { (a b : Meaning) → SameTimed a b → SameExact a b }
    ensures alike { (unit : ℕ) (a b c : Meaning) → SameTimed b c → first_difference unit a b ≡ first_difference unit a c }
{}
