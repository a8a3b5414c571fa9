// The place of the number in the first address.
ghost use Rattle.std.specs.Prelude.{◌≡◌, ◌<◌, ◌≤◌, ◌==◌, nat_eq, true, length, position, slice_index, IfSome};
ghost use Rattle.std.specs.Char.{is_ascii_digit};
ghost use Rattle.std.specs.List.{common_prefix_len};
ghost use Rattle.segment_forms.specs.Places.{ends_path, first_difference, last_place, name_start, path_of};
ghost use Rattle.segment_forms.specs.Places.{place_in_path, stem_of};

/// The first place where two addresses differ, if the first one has a digit there.
pub fn first_difference(first: &[u8], second: &[u8]) -> Option<usize>
    ensures value { result ≡ first_difference first.now second.now }
    ensures digit { IfSome result (λ place. is_ascii_digit (slice_index first.now place) ≡ true) }
{
    let place = common_len(first, second);
    if place < first.len() && first[place].is_ascii_digit() {
        Some(place)
    } else {
        None
    }
}

/// How many bytes two addresses begin with that are the same in both.
fn common_len(first: &[u8], second: &[u8]) -> usize
    ensures { result ≡ common_prefix_len nat_eq first.now second.now }
{
    let mut len = 0;
    while len < first.len() && len < second.len() && first[len] == second[len] {
        len += 1;
    }
    len
}

/// The last digit of the name that ends the address's path, before the last `.` of the name.
pub fn place_in_name(address: &[u8]) -> Option<usize>
    ensures value { result ≡ place_in_path (path_of address.now) }
    ensures digit { IfSome result (λ place. is_ascii_digit (slice_index address.now place) ≡ true) }
{
    place_in_path(path_of(address))
}

/// An address without its query and its fragment.
fn path_of(address: &[u8]) -> &[u8]
    ensures { result.now ≡ path_of address.now }
{
    match path_end(address) {
        Some(end) => &address[..end],
        None => address,
    }
}

fn path_end(address: &[u8]) -> Option<usize>
    ensures { result ≡ position ends_path address.now }
{
    address.iter().position(|byte| ends_path(*byte))
}

fn ends_path(byte: u8) -> bool
    ensures { result ≡ ends_path byte }
{
    matches!(byte, b'?' | b'#')
}

fn place_in_path(path: &[u8]) -> Option<usize>
    ensures value { result ≡ place_in_path path.now }
    ensures within { IfSome result (λ place. place < length path.now) }
    ensures digit { IfSome result (λ place. is_ascii_digit (slice_index path.now place) ≡ true) }
{
    let start = name_start(path);
    let place = last_digit(stem_of(&path[start..]))?;
    Some(start + place)
}

/// Where the name that ends a path begins.
fn name_start(path: &[u8]) -> usize
    ensures value { result ≡ name_start path.now }
    ensures within { result ≤ length path.now }
{
    match last_byte(path, b'/') {
        Some(slash) => slash + 1,
        None => 0,
    }
}

/// A name without its last `.` and what follows it.
fn stem_of(name: &[u8]) -> &[u8]
    ensures { result.now ≡ stem_of name.now }
{
    match last_byte(name, b'.') {
        Some(dot) => &name[..dot],
        None => name,
    }
}

fn last_byte(text: &[u8], byte: u8) -> Option<usize>
    ensures value { result ≡ last_place (λ b. b == byte) text.now }
    ensures within { IfSome result (λ place. place < length text.now) }
{
    let mut end = text.len();
    while end > 0 {
        end -= 1;
        if text[end] == byte {
            return Some(end);
        }
    }
    None
}

fn last_digit(text: &[u8]) -> Option<usize>
    ensures value { result ≡ last_place is_ascii_digit text.now }
    ensures within { IfSome result (λ place. place < length text.now) }
    ensures digit { IfSome result (λ place. is_ascii_digit (slice_index text.now place) ≡ true) }
{
    let mut end = text.len();
    while end > 0 {
        end -= 1;
        if text[end].is_ascii_digit() {
            return Some(end);
        }
    }
    None
}
