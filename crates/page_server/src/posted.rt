// Posted manifests.
ghost use Rattle.std.specs.Prelude.{◌≡◌, IfOk, option_map};
ghost use Rattle.form_urlencoded.specs.Form as form;
ghost use Rattle.page_server.specs.Requests.{decoded, field_of, posted_name, posted_of, posted_with, raw_field_of};

use crate::wanted::name_if;
use crate::{Manifest, SourceFile, Sources};
use bridge_io::{Bytes, Name, NoMemory, Text};
use form_urlencoded::{decode, raw_pairs};
use std::alloc::Global;

/// A file to make from a posted manifest.
#[derive(Drop)]
pub struct Posted {
    /// The manifest.
    pub manifest: Manifest,
    /// The file's name: the manifest's, `/` and the name in the request.
    pub file: Name,
}

impl Posted {
    /// What a request with this query and this body asks for: `base` and `file` are form fields of the query.
    #[tactic(auto, unfolding(crate::specs::Requests::posted_of))]
    pub fn of(alloc: Global, query: &str, body: &[u8]) -> Result<Option<Posted>, NoMemory>
        ensures { IfOk result (λ posted. posted ≡ posted_of query.now body.now) }
    {
        let Some(base) = field(alloc, query, "base")? else {
            return Ok(None);
        };
        let Some(file) = field(alloc, query, "file")? else {
            return Ok(None);
        };
        posted_with(alloc, base, file.as_str(), body)
    }
}

/// A file of a manifest with this base and these bytes. `None` where its name isn't valid.
fn posted_with(
    alloc: Global,
    base: Text,
    file: &str,
    body: &[u8],
) -> Result<Option<Posted>, NoMemory>
    ensures { IfOk result (λ posted. posted ≡ posted_with body.now base file.now) }
{
    let file = format!(in alloc; "manifest.mpd/{file}")?;
    let Some(file) = name_if(alloc, file.as_str())? else {
        return Ok(None);
    };
    let mut bytes = Bytes::new(alloc);
    bytes.extend(body)?;
    let mut files = Sources::new(alloc);
    files.push(SourceFile {
        name: own_name(alloc)?,
        bytes,
    })?;
    let manifest = Manifest {
        base,
        name: own_name(alloc)?,
        files,
    };
    Ok(Some(Posted { manifest, file }))
}

/// The name of a posted manifest. It is in the folder of its base.
fn own_name(alloc: Global) -> Result<Name, NoMemory>
    ensures { IfOk result (λ name. name ≡ posted_name) }
{
    Name::read(alloc, "manifest.mpd").map_err(|_| NoMemory)
}

/// The value of the first field of a name.
fn field(alloc: Global, query: &str, name: &str) -> Result<Option<Text>, NoMemory>
    ensures { IfOk result (λ value. value ≡ field_of query.now name.now) }
{
    match raw_field(query, name) {
        Some(pair) => Ok(Some(decoded(alloc, pair.1)?)),
        None => Ok(None),
    }
}

/// The first field of a name, as it is written.
fn raw_field<'a>(query: &'a str, name: &str) -> Option<(&'a [u8], &'a [u8])>
    ensures { option_map form.pair_text result ≡ raw_field_of query.now name.now }
{
    raw_pairs(query.as_bytes()).find(|pair| pair.0 == name.as_bytes())
}

/// The decoded text of a value.
fn decoded(alloc: Global, value: &[u8]) -> Result<Text, NoMemory>
    ensures { IfOk result (λ text. text ≡ decoded value.now) }
{
    let text = decode(alloc, value)?;
    Text::copy_of(alloc, text.as_str())
}
