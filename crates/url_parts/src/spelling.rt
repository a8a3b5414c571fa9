// The spelling of URLs in a written playlist.
ghost use Rattle.std.specs.Prelude.{◌≡◌, ◌++◌, true, IfOk, IfSome, None, Some, if◌then◌else◌};
ghost use Rattle.std.specs.Option.{option_copied};
ghost use Rattle.url_parts.specs.Addresses.{absolute, resolve};
ghost use Rattle.url_parts.specs.Spelling.{IsInner, ReachesNames, SpellsNames, is_given, place_of, rest_of, spelled, spelled_beside};
ghost use Rattle.url_parts.specs.Spelling.{steps_up};

use crate::base::{MAX_LEN, MAX_NAME_LEN, folder_of};
use crate::{Base, UrlFault};
use bridge_io::{Name, NoMemory, Text, is_name};
use std::alloc::Global;
use std::marker::Model;

/// How the URLs in a written playlist are spelled: absolute, or relative to the playlist where that gives the same URL.
#[derive(Drop)]
pub struct Spelling {
    playlist: Option<Playlist>,
}

impl Model for Spelling {
    ghost use Rattle.std.specs.Prelude.{Option};
    ghost use Rattle.url_parts.specs.Spelling.{PlaylistPlace};

    ghost Value = { Option PlaylistPlace };

    ghost view = { λ s. s.playlist };
}

impl Spelling {
    /// All URLs are absolute.
    pub fn absolute() -> Spelling
        ensures { result ≡ None }
    {
        Spelling { playlist: None }
    }

    /// URLs that begin with the base's text are relative to a playlist in an output folder, where that gives the same URL.
    ///
    /// The playlist's URL is the base's text followed by the output folder's name, `/` and the playlist's name. Where
    /// this isn't a base's text in its normal form, all URLs are absolute.
    #[tactic(auto, unfolding(crate::specs::Spelling::place_of))]
    pub fn beside(
        alloc: Global,
        folder: &Base,
        out: &Name,
        file: &str,
    ) -> Result<Spelling, NoMemory>
        ensures { IfOk result (λ spelling. spelling ≡ place_of folder.now out.now file.now) }
    {
        let base = folder.as_str();
        let out = out.as_str();
        let url = format!(in alloc; "{base}{out}/{file}")?;
        let Some(url) = normal_base(alloc, url.as_str())? else {
            return Ok(Spelling::absolute());
        };
        let folder = folder.copy(alloc)?;
        let up = steps_up(alloc, out)?;
        let reaches = reaches(alloc, &url, up.as_str(), &folder)?;
        let playlist = Some(Playlist {
            folder,
            up,
            url,
            reaches,
        });
        Ok(Spelling { playlist })
    }

    /// How a URL is written. It gives the same URL against the playlist's own one (`laws::spelled_address`).
    ///
    /// Nothing is allocated where all URLs are absolute, nor for a URL that doesn't begin with the base's text, nor as a rule
    /// for one that is a name behind it.
    pub fn of<'a>(&'a self, alloc: Global, address: &'a str) -> Result<Reference<'a>, NoMemory>
        ensures { IfOk result (λ written. written.up.now ++ written.rest.now ≡ spelled self.now address.now) }
    {
        match &self.playlist {
            None => Ok(Reference::absolute(address)),
            Some(playlist) => playlist.reference(alloc, address),
        }
    }

    /// What is before the names in a folder, where it is one text for all of them, so that no name is tested.
    pub fn front(&self, alloc: Global, folder: &str) -> Result<Option<Front>, NoMemory>
        ensures { IfOk result (λ front. IfSome front (SpellsNames self.now folder.now)) }
    {
        match &self.playlist {
            None => Ok(Some(Front::of_folder(alloc, folder)?)),
            Some(playlist) => playlist.front(alloc, folder),
        }
    }
}

/// What a playlist has before the names in a folder.
#[derive(Drop)]
pub struct Front {
    pub text: Text,
    /// The most bytes of a name that it is for.
    pub most: usize,
}

impl Front {
    /// The folder itself, where URLs are absolute.
    fn of_folder(alloc: Global, folder: &str) -> Result<Front, NoMemory>
        ensures { IfOk result (λ front. front.text ≡ folder.now) }
    {
        Ok(Front {
            text: Text::copy_of(alloc, folder)?,
            most: MAX_NAME_LEN,
        })
    }
}

/// The text of a URL in a playlist: two pieces, of which the second follows the first.
#[derive(Clone, Copy)]
pub struct Reference<'a> {
    /// `../` for each step up to the folder; empty for an absolute URL.
    pub up: &'a str,
    /// The rest of the URL behind the folder's text; the whole URL where it is absolute.
    pub rest: &'a str,
}

impl<'a> Reference<'a> {
    fn absolute(address: &'a str) -> Reference<'a>
        ensures { result.up.now ++ result.rest.now ≡ address.now }
    {
        Reference {
            up: "",
            rest: address,
        }
    }
}

/// Where a playlist is written.
#[derive(Drop)]
struct Playlist {
    folder: Base,
    /// `../` for each step from the playlist up to the folder.
    up: Text,
    url: Base,
    /// Whether the steps up lead to the folder, so that names behind them aren't resolved.
    reaches: bool,
}

impl Model for Playlist {
    ghost use Rattle.std.specs.Prelude.{◌≡◌, true};
    ghost use Rattle.url_parts.specs.Spelling.{PlaylistPlace, ReachesNames};

    ghost Value = { PlaylistPlace };

    ghost view = { λ p. record { folder = p.folder; up = p.up; url = p.url } };

    ghost invariant = { λ p. p.reaches ≡ true → ReachesNames (record { folder = p.folder; up = p.up; url = p.url }) };
}

impl Playlist {
    /// How a URL is written in this playlist.
    #[tactic(auto, unfolding(crate::specs::Spelling::spelled_beside))]
    fn reference<'a>(&'a self, alloc: Global, address: &'a str) -> Result<Reference<'a>, NoMemory>
        ensures { IfOk result (λ written. written.up.now ++ written.rest.now ≡ spelled_beside self.now address.now) }
    {
        match self.rest_of(alloc, address)? {
            None => Ok(Reference::absolute(address)),
            Some(rest) => Ok(Reference {
                up: self.up.as_str(),
                rest,
            }),
        }
    }

    /// The rest of a URL behind the folder's text, where the steps up and this rest give the URL.
    fn rest_of<'a>(&self, alloc: Global, address: &'a str) -> Result<Option<&'a str>, NoMemory>
        ensures { IfOk result (λ rest. option_copied rest ≡ rest_of self.now address.now) }
    {
        let Some(rest) = address.strip_prefix(self.folder.as_str()) else {
            return Ok(None);
        };
        if self.reaches && address.len() <= MAX_LEN && is_name(rest.as_bytes()) {
            return Ok(Some(rest));
        }
        let up = self.up.as_str();
        let reference = format!(in alloc; "{up}{rest}")?;
        Ok(gives(alloc, &self.url, reference.as_str(), address)?.then_some(rest))
    }

    /// What is before the names in a folder.
    fn front(&self, alloc: Global, folder: &str) -> Result<Option<Front>, NoMemory>
        ensures { IfOk result (λ front. IfSome front (SpellsNames (Some self.now) folder.now)) }
    {
        let base = self.folder.as_str();
        let Some(inner) = folder.strip_prefix(base) else {
            if folder.len() < base.len() {
                return Ok(None);
            }
            return Ok(Some(Front::of_folder(alloc, folder)?));
        };
        if !self.reaches || folder.len() > MAX_LEN - MAX_NAME_LEN || !is_inner(inner) {
            return Ok(None);
        }
        let up = self.up.as_str();
        let text = format!(in alloc; "{up}{inner}")?;
        Ok(Some(Front {
            text: Text::from(text),
            most: MAX_NAME_LEN.saturating_sub(inner.len()),
        }))
    }
}

/// Whether a text is empty, or a name with a `/` behind it.
fn is_inner(text: &str) -> bool
    ensures { result ≡ true → IsInner text.now }
{
    match text.strip_suffix("/") {
        Some(parts) => is_name(parts.as_bytes()),
        None => text.is_empty(),
    }
}

/// Whether the steps up from a playlist lead to the folder.
fn reaches(alloc: Global, url: &Base, up: &str, folder: &Base) -> Result<bool, NoMemory>
    ensures { IfOk result (λ reaches. reaches ≡ true
        → ReachesNames (record { folder = folder.now; up = up.now; url = url.now })) }
{
    let text = folder.as_str();
    if folder_of(text) != text {
        return Ok(false);
    }
    let Some(deeper) = url.beneath(alloc, up)? else {
        return Ok(false);
    };
    if deeper.as_str() != text {
        return Ok(false);
    }
    Ok(true)
}

/// Whether a reference resolves to this URL against a base.
fn gives(alloc: Global, base: &Base, reference: &str, address: &str) -> Result<bool, NoMemory>
    ensures { IfOk result (λ gives. gives ≡ is_given address.now (resolve base.now reference.now)) }
{
    match base.join(alloc, reference) {
        Ok(url) => Ok(url.as_str() == address),
        Err(UrlFault::Memory) => Err(NoMemory),
        Err(_) => Ok(false),
    }
}

/// A text as a base, where it is the text of that base.
fn normal_base(alloc: Global, text: &str) -> Result<Option<Base>, NoMemory>
    ensures { IfOk result (λ base. base ≡ (if is_given text.now (absolute text.now) then Some text.now else None)) }
{
    match Base::of(alloc, text) {
        Ok(base) => Ok((base.as_str() == text).then_some(base)),
        Err(UrlFault::Memory) => Err(NoMemory),
        Err(_) => Ok(None),
    }
}

/// `../` for each part of a name.
fn steps_up(alloc: Global, out: &str) -> Result<Text, NoMemory>
    ensures { IfOk result (λ up. up ≡ steps_up out.now) }
{
    let mut up = String::from_str(alloc, "../")?;
    for byte in out.as_bytes() {
        if *byte == b'/' {
            up.push_str("../")?;
        }
    }
    Ok(Text::from(up))
}
