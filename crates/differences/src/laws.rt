//! Laws of the differences of manifests. The functions do nothing: what they ensure is the law.
ghost use Rattle.std.specs.Prelude.{◌≡◌, ◌↔◌, ℕ, []};
ghost use Rattle.meaning.specs.Meanings.{Meaning};
ghost use Rattle.meaning.specs.Differences.{first_difference};
ghost use Rattle.differences.specs.Alike.{SameDeviateAlike, SameGreatest};
ghost use Rattle.presentation.specs.Meanings.{meaning_of};
ghost use Rattle.presentation.specs.Presented.{Presented};
ghost use Rattle.differences.specs.Agreeing.{AgreesWithin, HasSections, first_deviation};
ghost use Rattle.differences.specs.Deviating.{deviations};

/// In what a presentation means each track has an entry for each section.
pub fn presentations_have_sections()
    ensures { (p : Presented) → HasSections (meaning_of p) }
{}

/// Without a tolerance the first of all differences is the first difference.
pub fn the_first_is_the_first_difference()
    ensures { (unit : ℕ) (a b : Meaning) → HasSections a → HasSections b → first_deviation 0 unit a b ≡ first_difference unit a b }
{}

/// There is no difference exactly where both mean the same, with times that are equal, rounded down or within the
/// tolerance.
pub fn none_where_they_agree()
    ensures { (within unit : ℕ) (a b : Meaning) → HasSections a → HasSections b
        → AgreesWithin within unit a b ↔ (deviations within unit a b ≡ []) }
{}

/// Two presentations that mean the same, with equal and valid times, differ from a third one at the same places and in the same
/// way, apart from the starts of segments, and the ends of their segments by as much.
pub fn the_same_deviate_alike()
    ensures alike { SameDeviateAlike }
    ensures greatest { SameGreatest }
{}
