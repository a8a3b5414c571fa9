// How far addresses follow a pattern, one address after another.
ghost use Rattle.std.specs.Prelude.{◌≡◌, ℕ, List, [], ◌∷◌, ◌++◌, string_bytes, IfOk, IfSome, OnErr};
ghost use Rattle.segment_forms.specs.Patterns.{IsPlaced, pattern_of};
ghost use Rattle.segment_forms.specs.Seen.{IsProgress, PlacedIn, followed_by};

use crate::Pattern;
use crate::number::is_address;
use crate::place::{first_difference, place_in_name};
use crate::progress::Progress;
use crate::run::pattern_at;
use bridge_io::NoMemory;

/// How far addresses follow a pattern with one more. The first of all is kept.
pub fn progress_with(
    first: &mut String,
    progress: Progress,
    address: &str,
) -> Result<Progress, NoMemory>
    requires { PlacedIn (string_bytes first.old) progress }
    ensures progress { (xs : List (List ℕ)) → IsProgress (string_bytes first.old) progress xs
        → IfOk result (λ after. IsProgress (string_bytes first.new) after (xs ++ address.now ∷ [])) }
    ensures placed { IfOk result (PlacedIn (string_bytes first.new)) }
    ensures err { OnErr result (string_bytes first.new ≡ string_bytes first.old) }
{
    match progress {
        Progress::Empty => {
            first.push_str(address)?;
            Ok(Progress::One)
        }
        Progress::One => Ok(started(first.as_str(), address)),
        Progress::Followed { pattern, next } => Ok(followed(
            first.as_str(),
            pattern,
            next,
            address,
        )),
        Progress::Lost => Ok(Progress::Lost),
    }
}

/// The pattern of the addresses so far.
pub fn pattern_so_far(first: &str, progress: Progress) -> Option<Pattern>
    requires { PlacedIn first.now progress }
    ensures value { (xs : List (List ℕ)) → IsProgress first.now progress xs → result ≡ pattern_of xs }
    ensures placed { IfSome result (IsPlaced first.now) }
{
    match progress {
        Progress::One => only(first),
        Progress::Followed { pattern, .. } => Some(pattern),
        Progress::Empty | Progress::Lost => None,
    }
}

/// The pattern of one address.
fn only(first: &str) -> Option<Pattern>
    ensures value { result ≡ pattern_of (first.now ∷ []) }
    ensures placed { IfSome result (IsPlaced first.now) }
{
    let place = place_in_name(first.as_bytes())?;
    pattern_at(first, place)
}

/// How far two addresses follow a pattern.
fn started(first: &str, second: &str) -> Progress
    ensures progress { IsProgress first.now result (first.now ∷ (second.now ∷ [])) }
    ensures placed { PlacedIn first.now result }
{
    let Some(place) = first_difference(first.as_bytes(), second.as_bytes()) else {
        return Progress::Lost;
    };
    let Some(pattern) = pattern_at(first, place) else {
        return Progress::Lost;
    };
    followed(first, pattern, u64::from(pattern.first_number) + 1, second)
}

/// How far addresses follow a pattern with one more, given the number that it should have.
fn followed(first: &str, pattern: Pattern, next: u64, address: &str) -> Progress
    requires { IsPlaced first.now pattern }
    ensures value { result ≡ followed_by first.now pattern next address.now }
    ensures placed { PlacedIn first.now result }
{
    match u32::try_from(next) {
        Ok(number) if is_address(first, pattern, number, address) => Progress::Followed {
            pattern,
            next: next + 1,
        },
        _ => Progress::Lost,
    }
}
