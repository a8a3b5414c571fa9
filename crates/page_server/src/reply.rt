// The replies.
ghost use Rattle.std.specs.Prelude.{◌≡◌, ◌∷◌, ◌++◌, [], OnOk};
ghost use Rattle.std.specs.Option.{option_copied};
ghost use Rattle.http_header.specs.FieldValue.{FieldValue};
ghost use Rattle.http_server.specs.Response.{IsBlank, fields_of};
ghost use Rattle.page_server.specs.Answers as spec;
ghost use Rattle.page_server.specs.Pages.{held};
ghost use Rattle.page_server.specs.Tags.{known_in};

use crate::known::is_known_in;
use crate::tagged::Tagged;
use crate::workshop::Held;
use bridge_io::{Name, NoMemory};
use bytes::BufMut;
use http::header::{ALLOW, CACHE_CONTROL, CONTENT_TYPE, ETAG};
use http::{HeaderMap, HeaderValue, StatusCode};
use http_server::Response;

/// A response with only a status.
pub fn alone(status: StatusCode, response: &mut Response) -> Result<(), NoMemory>
    requires { IsBlank response.old }
    ensures { OnOk result (spec.HasReply (spec.alone status) response.new) }
{
    response.status = status;
    Ok(())
}

/// There is no such file.
pub fn not_found(response: &mut Response) -> Result<(), NoMemory>
    requires { IsBlank response.old }
    ensures { OnOk result (spec.HasReply spec.not_found response.new) }
{
    response.status = StatusCode::NOT_FOUND;
    ask_again(response)
}

/// Only these methods are allowed.
pub fn not_allowed(methods: HeaderValue, response: &mut Response) -> Result<(), NoMemory>
    requires { IsBlank response.old }
    ensures { OnOk result (spec.HasReply (spec.not_allowed methods.bytes) response.new) }
{
    response.status = StatusCode::METHOD_NOT_ALLOWED;
    response.add_header(ALLOW, methods)?;
    Ok(())
}

/// A file of the manifest exceeds the size limit.
pub fn too_long(response: &mut Response) -> Result<(), NoMemory>
    requires { IsBlank response.old }
    ensures { OnOk result (spec.HasReply (spec.refused spec.too_long) response.new) }
{
    refused(b"a file is too long\n", response)
}

/// The reply with a page of a file of this name, to a client whose request may list ETags.
pub fn page_reply(
    cache: &HeaderValue,
    file: &Name,
    headers: Option<&HeaderMap>,
    page: &Held,
    response: &mut Response,
) -> Result<(), NoMemory>
    requires { IsBlank response.old }
    ensures { OnOk result (spec.HasReply (spec.page_reply cache.now.bytes file.now (known_in (option_copied headers.entry)) (held page.now))
        response.new) }
{
    match page {
        Held::Text(text) => text_reply(cache, file, headers, text, response),
        Held::Missing => not_found(response),
        Held::Refused(line) => refused(line.as_slice(), response),
    }
}

fn text_reply(
    cache: &HeaderValue,
    file: &Name,
    headers: Option<&HeaderMap>,
    text: &Tagged,
    response: &mut Response,
) -> Result<(), NoMemory>
    requires { IsBlank response.old }
    ensures { OnOk result (spec.HasReply (spec.text_reply cache.now.bytes file.now (known_in (option_copied headers.entry)) text.now)
        response.new) }
{
    let tag = text.tag()?;
    if is_known_in(headers, tag.as_bytes()) {
        response.status = StatusCode::NOT_MODIFIED;
        response.add_header(ETAG, tag)?;
        return cached(cache.clone()?, response);
    }
    response.add_header(CONTENT_TYPE, media_type(file))?;
    response.add_header(ETAG, tag)?;
    cached(cache.clone()?, response)?;
    response.body.push(text.text()?)?;
    Ok(())
}

/// The manifest is rejected; the line says why.
fn refused(line: &[u8], response: &mut Response) -> Result<(), NoMemory>
    requires { IsBlank response.old }
    ensures { OnOk result (spec.HasReply (spec.refused line.now) response.new) }
{
    response.status = StatusCode::UNPROCESSABLE_ENTITY;
    response.add_header(
        CONTENT_TYPE,
        HeaderValue::from_static("text/plain; charset=utf-8"),
    )?;
    ask_again(response)?;
    response.body.put_slice(line)?;
    Ok(())
}

/// Caches have to revalidate before they use what they have.
fn ask_again(response: &mut Response) -> Result<(), NoMemory>
    ensures fields { OnOk result (fields_of response.new ≡ fields_of response.old ++ spec.asked_again ∷ []) }
    ensures status { response.new.status ≡ response.old.status }
    ensures body { response.new.body ≡ response.old.body }
{
    cached(HeaderValue::from_static("no-cache"), response)
}

/// How caches may use the response.
fn cached(cache: HeaderValue, response: &mut Response) -> Result<(), NoMemory>
    ensures fields { OnOk result (fields_of response.new ≡ fields_of response.old ++ spec.cached cache.bytes ∷ []) }
    ensures status { response.new.status ≡ response.old.status }
    ensures body { response.new.body ≡ response.old.body }
{
    response.add_header(CACHE_CONTROL, cache)?;
    Ok(())
}

fn media_type(file: &Name) -> HeaderValue
    ensures { result.bytes ≡ spec.media_type file.now }
{
    if file.as_str().as_bytes().ends_with(b".mpd") {
        HeaderValue::from_static("application/dash+xml")
    } else {
        HeaderValue::from_static("application/vnd.apple.mpegurl")
    }
}
