// The bytes of a text by their role in the grammar of XML 1.0, and runs of them.
ghost use Rattle.std.specs.Prelude.{◌≡◌, position};
ghost use Rattle.mpd_tree.specs.Characters.{is_white, starts_name, goes_on_name};
ghost use Rattle.mpd_tree.specs.Runs as runs;

/// White space, production 3.
#[tactic(auto, unfolding(mpd_tree::specs::Characters::is_white))]
#[inline(always)]
pub(crate) fn is_white(byte: u8) -> bool
    ensures { result ≡ is_white byte }
{
    byte == b' ' || byte == b'\t' || byte == b'\n' || byte == b'\r'
}

// What each byte is in a name: 2 where it may be the first one, 1 where it may be a later one only. All characters from
// U+0080 on are allowed.
#[rattlefmt::skip]
static ROLES: [u8; 256] = [
    0, 0, 0, 0, 0, 0, 0, 0, 0, 0, 0, 0, 0, 0, 0, 0,
    0, 0, 0, 0, 0, 0, 0, 0, 0, 0, 0, 0, 0, 0, 0, 0,
    0, 0, 0, 0, 0, 0, 0, 0, 0, 0, 0, 0, 0, 1, 1, 0,
    1, 1, 1, 1, 1, 1, 1, 1, 1, 1, 2, 0, 0, 0, 0, 0,
    0, 2, 2, 2, 2, 2, 2, 2, 2, 2, 2, 2, 2, 2, 2, 2,
    2, 2, 2, 2, 2, 2, 2, 2, 2, 2, 2, 0, 0, 0, 0, 2,
    0, 2, 2, 2, 2, 2, 2, 2, 2, 2, 2, 2, 2, 2, 2, 2,
    2, 2, 2, 2, 2, 2, 2, 2, 2, 2, 2, 0, 0, 0, 0, 0,
    2, 2, 2, 2, 2, 2, 2, 2, 2, 2, 2, 2, 2, 2, 2, 2,
    2, 2, 2, 2, 2, 2, 2, 2, 2, 2, 2, 2, 2, 2, 2, 2,
    2, 2, 2, 2, 2, 2, 2, 2, 2, 2, 2, 2, 2, 2, 2, 2,
    2, 2, 2, 2, 2, 2, 2, 2, 2, 2, 2, 2, 2, 2, 2, 2,
    2, 2, 2, 2, 2, 2, 2, 2, 2, 2, 2, 2, 2, 2, 2, 2,
    2, 2, 2, 2, 2, 2, 2, 2, 2, 2, 2, 2, 2, 2, 2, 2,
    2, 2, 2, 2, 2, 2, 2, 2, 2, 2, 2, 2, 2, 2, 2, 2,
    2, 2, 2, 2, 2, 2, 2, 2, 2, 2, 2, 2, 2, 2, 2, 2,
];

/// The first byte of a name.
#[inline(always)]
pub(crate) fn starts_name(byte: u8) -> bool
    ensures { result ≡ starts_name byte }
{
    ROLES[usize::from(byte)] == 2
}

/// A later byte of a name.
#[inline(always)]
pub(crate) fn goes_on_name(byte: u8) -> bool
    ensures { result ≡ goes_on_name byte }
{
    ROLES[usize::from(byte)] != 0
}

#[inline(always)]
fn is_black(byte: u8) -> bool
    ensures { result ≡ runs.is_black byte }
{
    !is_white(byte)
}

#[inline(always)]
fn ends_name(byte: u8) -> bool
    ensures { result ≡ runs.ends_name byte }
{
    !goes_on_name(byte)
}

fn black_at(bytes: &[u8]) -> Option<usize>
    ensures { result ≡ position runs.is_black bytes.now }
{
    bytes.iter().position(|b| is_black(*b))
}

/// Skips leading white space.
pub(crate) fn after_white(bytes: &[u8]) -> &[u8]
    ensures { result.now ≡ runs.after_white bytes.now }
{
    let len = black_at(bytes).unwrap_or(bytes.len());
    &bytes[len..]
}

fn name_end(bytes: &[u8]) -> Option<usize>
    ensures { result ≡ position runs.ends_name bytes.now }
{
    bytes.iter().position(|b| ends_name(*b))
}

/// The leading name, and the bytes after it.
pub(crate) fn name_of(bytes: &[u8]) -> (&[u8], &[u8])
    ensures name { result.0.now ≡ (runs.name_at bytes.now).0 }
    ensures rest { result.1.now ≡ (runs.name_at bytes.now).1 }
{
    let len = name_end(bytes).unwrap_or(bytes.len());
    bytes.split_at(len)
}
