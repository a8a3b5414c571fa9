// Base URLs, against which references are resolved.
ghost use Rattle.std.specs.Prelude.{◌≡◌, ◌≤◌, ℕ, true, List, ◌++◌, length, take, drop, IfOk, IfSome, IsAscii, position, string_bytes};
ghost use Rattle.std.specs.List.{list_all};
ghost use Rattle.url.specs.Parser.{Gives as IsParsed, Parsed};
ghost use Rattle.url.specs.Parts.{Parts, IsValid};
ghost use Rattle.bridge_io.specs.Answer.{Gives};
ghost use Rattle.url_parts.specs.Addresses.{is_absolute, is_address_byte, is_web, text_of, accepted, refusal, IsAddress, IsBaseUrl};
ghost use Rattle.url_parts.specs.Addresses.{folder_of, unless_long, is_tail, without_tail, local_name_of};
ghost use Rattle.url_parts.specs.Paths.{IsPath, is_folder_path, is_path_byte, is_plain, is_segment_byte};
ghost use Rattle.bridge_io.specs.Names.{is_name_byte};

use crate::roots::is_rooted;
use crate::{Address, UrlFault};
use bridge_io::{Name, NameFault, NoMemory, Text, is_name};
use std::alloc::Global;
use std::marker::Model;
use std::rc::Rc;
use url::{ParseResult, Url};

/// The most bytes that a URL has.
pub(crate) const MAX_LEN: usize = 2048;

/// The most bytes that a name has.
pub(crate) const MAX_NAME_LEN: usize = 255;

/// A URL against which references are resolved (RFC 3986, 5.1; ISO/IEC 23009-1, 5.6.4).
///
/// Copies share one URL.
#[derive(Drop)]
pub struct Base {
    url: Rc<Url>,
    /// How many bytes of the text its folder takes.
    folder: usize,
}

impl Model for Base {
    ghost use Rattle.std.specs.Prelude.{ℕ, List};
    ghost use Rattle.url_parts.specs.Addresses.{text_of, IsBaseWith};

    ghost Value = { List ℕ };

    ghost view = { λ b. text_of b.url.value };

    ghost invariant = { λ b. IsBaseWith b.url.value b.folder };
}

impl Base {
    ghost use Rattle.url_parts.specs.Addresses.{absolute, resolve, beside, IsBase};
    ghost use Rattle.url_parts.specs.Paths.{is_plain, IsBeneath};

    /// Reads an absolute URL as a base. `Refused`, `Scheme` and `TooLong` come exactly where they apply to the text,
    /// the first of them in this order.
    #[tactic(auto, unfolding(crate::specs::Addresses::absolute))]
    pub fn of(alloc: Global, text: &str) -> Result<Base, UrlFault>
        ensures { Gives (λ base. base) refusal result (absolute text.now) }
    {
        Ok(Base::new(alloc, accept(Url::parse(alloc, text))?)?)
    }

    /// The base that a reference resolves to against this one.
    ///
    /// A reference that begins with `http://` or `https://` is read without the base: the URL Standard gives the same
    /// with it. `Refused`, `Scheme` and `TooLong` come exactly where they apply to the reference against this base, the
    /// first of them in this order.
    pub fn deeper(&self, alloc: Global, reference: &str) -> Result<Base, UrlFault>
        ensures { Gives (λ base. base) refusal result (resolve self.now reference.now) }
    {
        Ok(Base::new(alloc, self.resolve(alloc, reference)?)?)
    }

    /// The base for all references that begin with a prefix that ends in `/`: the rest of each, resolved against it, gives
    /// what the whole reference gives against this base. `None` where the prefix isn't the path of a folder, alone or
    /// behind a `/` or a host with its scheme, or where it gives no base.
    #[tactic(auto, using(crate::proofs::Fronts::beneath, crate::proofs::Rooted::beneath_root))]
    pub fn beneath(&self, alloc: Global, front: &str) -> Result<Option<Base>, NoMemory>
        ensures { IfOk result (λ deeper. IfSome deeper (IsBeneath self.now front.now)) }
    {
        let _ = self.as_str(); // opens the value, for its invariant
        if !is_folder_path(front.as_bytes()) && !is_rooted(front) {
            return Ok(None);
        }
        match self.deeper(alloc, front) {
            Ok(deeper) => Ok(Some(deeper)),
            Err(UrlFault::Memory) => Err(NoMemory),
            Err(_) => Ok(None),
        }
    }

    /// The URL that a reference resolves to against this base.
    ///
    /// A name is appended to the base's folder without parsing, and so is one longer segment. `Refused`, `Scheme` and
    /// `TooLong` come exactly where they apply to the reference against this base, the first of them in this order.
    #[tactic(auto, using(crate::proofs::Relative::resolve_plain))]
    pub fn join(&self, alloc: Global, reference: &str) -> Result<Address, UrlFault>
        ensures { Gives (λ address. address) refusal result (resolve self.now reference.now) }
    {
        if is_plain(reference.as_bytes()) {
            return self.child(alloc, reference);
        }
        Ok(address_of(alloc, self.resolve(alloc, reference)?)?)
    }

    /// The base's folder, to which a reference is to be added: the base's text without query and fragment, up to and
    /// with its last `/` (RFC 3986, 5.2.3).
    ///
    /// The text has room for `room` more bytes. `NoMemory` comes where there is no memory for it.
    pub fn begin(&self, alloc: Global, room: usize) -> Result<String, NoMemory>
        ensures text { IfOk result (λ text. string_bytes text ≡ folder_of self.now) }
        ensures base { IsBase self.now }
    {
        let folder = self.folder();
        let mut text = String::with_capacity(alloc, folder.len().saturating_add(room))?;
        text.push_str(folder)?;
        Ok(text)
    }

    /// The URL that a reference resolves to against this base, where the text is the base's folder (`begin`) followed
    /// by the reference.
    ///
    /// For a name the text itself becomes the URL. `Refused`, `Scheme` and `TooLong` come exactly where they apply to
    /// the reference against this base, the first of them in this order.
    #[tactic(auto, using(crate::proofs::Relative::resolve_behind, crate::proofs::Relative::behind_is_address))]
    pub fn finish(&self, alloc: Global, text: String) -> Result<Address, UrlFault>
        requires { take (length (folder_of self.now)) (string_bytes text) ≡ folder_of self.now }
        ensures { Gives (λ address. address) refusal result (resolve self.now (drop (length (folder_of self.now)) (string_bytes text))) }
    {
        let reference = &text.as_str()[self.folder().len()..];
        if !is_plain(reference.as_bytes()) {
            return self.join(alloc, reference);
        }
        unless_long(alloc, text)
    }

    /// The URL of a name in the base's folder: the base's text without query and fragment, up to and with its last `/`,
    /// followed by the name.
    ///
    /// `TooLong` comes exactly where this text has more than 2,048 bytes. `Refused` would come where the text isn't its
    /// own serialization by the URL Standard: for a base and a name it always is (`laws::name_beside`).
    #[tactic(auto, using(crate::proofs::Relative::beside_name, crate::proofs::Relative::name_is_plain))]
    pub fn beside(&self, alloc: Global, name: &Name) -> Result<Address, UrlFault>
        ensures { Gives (λ address. address) refusal result (beside self.now name.now) }
    {
        self.child(alloc, name.as_str())
    }

    /// The base's text.
    #[tactic(auto, using(crate::proofs::Bases::base_is_address))]
    pub fn as_str(&self) -> &str
        ensures text { result.now ≡ self.now }
        ensures address { IsAddress self.now }
        ensures base { IsBase self.now }
    {
        text_of(&self.url)
    }

    /// The same base again. It shares the URL, and allocates nothing.
    pub fn copy(&self, alloc: Global) -> Result<Base, NoMemory>
        ensures { IfOk result (λ copy. copy ≡ self.now) }
    {
        let _ = alloc;
        let url = self.url.clone()?;
        let folder = self.folder;
        Ok(Base { url, folder })
    }

    fn new(alloc: Global, url: Url) -> Result<Base, NoMemory>
        requires { IsBaseUrl url }
        ensures { IfOk result (λ base. base ≡ text_of url) }
    {
        let folder = folder_of(text_of(&url)).len();
        let url = Rc::new(alloc, url)?;
        Ok(Base { url, folder })
    }

    /// The base's text without query and fragment, up to and with its last `/`.
    fn folder(&self) -> &str
        ensures text { result.now ≡ folder_of self.now }
        ensures base { IsBase self.now }
    {
        &text_of(&self.url)[..self.folder]
    }

    /// The URL of a name in the base's folder.
    fn child(&self, alloc: Global, name: &str) -> Result<Address, UrlFault>
        requires { is_plain name.now ≡ true }
        ensures value { Gives (λ address. address) refusal result (unless_long (folder_of self.now ++ name.now)) }
        ensures base { IsBase self.now }
    {
        let mut text = self.begin(alloc, name.len())?;
        text.push_str(name)?;
        unless_long(alloc, text)
    }

    /// The URL that a reference resolves to against this base, where it is accepted.
    #[tactic(auto, using(crate::proofs::Bases::own_url), unfolding(crate::specs::Addresses::resolve, crate::specs::Addresses::absolute))]
    fn resolve(&self, alloc: Global, reference: &str) -> Result<Url, UrlFault>
        ensures value { Gives text_of refusal result (resolve self.now reference.now) }
        ensures base { IfOk result IsBaseUrl }
    {
        if is_absolute(reference) {
            accept(Url::parse(alloc, reference))
        } else {
            accept(self.url.join(reference))
        }
    }
}

/// The parsed URL, where it is accepted.
fn accept(parsed: ParseResult<Url>) -> Result<Url, UrlFault>
    ensures value { (expected : Parsed Parts) → IsParsed parsed expected → Gives text_of refusal result (accepted expected) }
    ensures base { IfOk result IsBaseUrl }
{
    let url = parsed?;
    let text = text_of(&url);
    if !has_address_bytes(text) {
        return Err(UrlFault::Refused);
    }
    if !is_web(url.scheme()) {
        return Err(UrlFault::Scheme);
    }
    if text.len() > MAX_LEN {
        return Err(UrlFault::TooLong);
    }
    Ok(url)
}

/// A text as a URL, unless it is too long.
pub(crate) fn unless_long(alloc: Global, text: String) -> Result<Address, UrlFault>
    requires { length (string_bytes text) ≤ 2048 → IsAddress (string_bytes text) }
    ensures { Gives (λ address. address) refusal result (unless_long (string_bytes text)) }
{
    if text.len() > MAX_LEN {
        return Err(UrlFault::TooLong);
    }
    Ok(Address::of(alloc, Text::from(text))?)
}

#[tactic(auto, using(crate::proofs::Bases::base_is_address))]
fn address_of(alloc: Global, url: Url) -> Result<Address, NoMemory>
    requires { IsBaseUrl url }
    ensures { IfOk result (λ address. address ≡ text_of url) }
{
    Address::of(alloc, into_text(url))
}

#[tactic(auto, unfolding(crate::specs::Addresses::text_of))]
fn into_text(url: Url) -> Text
    ensures { result ≡ text_of url }
{
    Text::from(String::from(url))
}

#[tactic(auto, unfolding(crate::specs::Addresses::text_of))]
fn text_of(url: &Url) -> &str
    ensures text { result.now ≡ text_of url.now }
    ensures ascii { IsAscii result.now }
    ensures valid { IsValid url.now }
{
    url.as_str()
}

/// A text without query and fragment, up to and with its last `/`.
pub(crate) fn folder_of(text: &str) -> &str
    ensures { result.now ≡ folder_of text.now }
{
    let path = without_tail(text);
    match path.rfind('/') {
        None => "",
        Some(slash) => &path[..slash + 1],
    }
}

/// The text before the first `?` or `#`.
fn without_tail(text: &str) -> &str
    ensures { result.now ≡ without_tail text.now }
{
    match tail_start(text.as_bytes()) {
        None => text,
        Some(start) => &text[..start],
    }
}

/// The index of the first `?` or `#`.
fn tail_start(text: &[u8]) -> Option<usize>
    ensures { result ≡ position is_tail text.now }
{
    text.iter().position(|byte| matches!(byte, b'?' | b'#'))
}

/// The rest of a URL after a folder's text, without query and fragment, where that is a name.
///
/// Where the base's text is its own folder, so that it ends in `/` and has no query and no fragment, the name is that
/// of the file: against the base it gives the URL without query and fragment (`laws::name_of_local_file`). For
/// another base it is only the rest of the text.
pub fn local_name(alloc: Global, folder: &Base, address: &Address) -> Result<Option<Name>, NoMemory>
    ensures { IfOk result (λ name. name ≡ local_name_of folder.now address.now) }
{
    let Some(rest) = address.as_str().strip_prefix(folder.as_str()) else {
        return Ok(None);
    };
    match Name::read(alloc, without_tail(rest)) {
        Ok(name) => Ok(Some(name)),
        Err(NameFault::Shape) => Ok(None),
        Err(NameFault::Memory) => Err(NoMemory),
    }
}

pub(crate) fn is_absolute(reference: &str) -> bool
    ensures { result ≡ is_absolute reference.now }
{
    reference.starts_with("http://") || reference.starts_with("https://")
}

/// Whether a text is the path of a folder, in a relative reference.
pub(crate) fn is_folder_path(bytes: &[u8]) -> bool
    ensures { result ≡ is_folder_path bytes.now }
{
    have_path_bytes(bytes)
        && !bytes.is_empty()
        && bytes[0] != b'/'
        && bytes[bytes.len() - 1] == b'/'
}

/// Whether a text is a path, in a relative reference.
pub(crate) fn is_path(bytes: &[u8]) -> bool
    ensures { result ≡ true → IsPath bytes.now }
{
    have_path_bytes(bytes) && !bytes.is_empty() && bytes[0] != b'/'
}

fn have_path_bytes(bytes: &[u8]) -> bool
    ensures { result ≡ list_all is_path_byte bytes.now }
{
    bytes.iter().all(|byte| is_path_byte(*byte))
}

fn is_path_byte(byte: u8) -> bool
    ensures { result ≡ is_path_byte byte }
{
    byte.is_ascii_graphic() && !matches!(byte, b'#' | b':' | b'?' | b'\\')
}

/// Whether a text is appended to a folder as it is: a name, or one segment that is longer than a name may be.
fn is_plain(text: &[u8]) -> bool
    ensures { result ≡ is_plain text.now }
{
    is_name(text) || text.len() > MAX_NAME_LEN && has_segment_bytes(text)
}

fn has_segment_bytes(text: &[u8]) -> bool
    ensures { result ≡ list_all is_segment_byte text.now }
{
    text.iter().all(|byte| is_segment_byte(*byte))
}

fn is_segment_byte(byte: u8) -> bool
    ensures { result ≡ is_segment_byte byte }
{
    byte.is_ascii_alphanumeric()
        || matches!(byte, b'-' | b'.' | b'_' | b'~' | b'+' | b'=' | b',' | b'@')
}

fn has_address_bytes(text: &str) -> bool
    ensures { result ≡ list_all is_address_byte text.now }
{
    text.as_bytes().iter().all(|byte| is_address_byte(*byte))
}

fn is_address_byte(byte: u8) -> bool
    ensures { result ≡ is_address_byte byte }
{
    (0x21..=0x7e).contains(&byte) && byte != b'"'
}

fn is_web(scheme: &str) -> bool
    ensures { result ≡ is_web scheme.now }
{
    scheme == "http" || scheme == "https"
}
