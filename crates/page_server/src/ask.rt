// What a request asks for.
ghost use Rattle.std.specs.Prelude.{◌≡◌, IfOk};
ghost use Rattle.page_server.specs.Requests.{is_read, ask_of, query_in, read_ask, posted_ask};

use crate::{Posted, Wanted};
use bridge_io::NoMemory;
use bytes::Bytes;
use http::{Method, Request};
use std::alloc::Global;

/// What a request asks for.
#[derive(Drop)]
pub enum Ask {
    /// Nothing: there is no such path.
    Nothing,
    /// To do something other than read a file of a manifest.
    OnlyRead,
    /// To do something other than post a manifest, on the path for that.
    OnlyPosted,
    /// To make a file of a posted manifest, without a base or without a valid file name.
    Malformed,
    /// To read this file.
    File(Wanted),
    /// To make this file of a posted manifest.
    Posted(Posted),
}

impl Ask {
    /// What a request asks for.
    pub fn of(alloc: Global, request: &Request<Bytes>) -> Result<Ask, NoMemory>
        ensures { IfOk result (λ ask. ask ≡ ask_of request.now) }
    {
        if request.uri().path() == "/hls" {
            return posted(alloc, request);
        }
        read(alloc, request)
    }
}

/// What a request asks for whose path may be that of a file.
fn read(alloc: Global, request: &Request<Bytes>) -> Result<Ask, NoMemory>
    ensures { IfOk result (λ ask. ask ≡ read_ask request.now) }
{
    match Wanted::at(alloc, request.uri().path())? {
        None => Ok(Ask::Nothing),
        Some(wanted) if is_read(request.method()) => Ok(Ask::File(wanted)),
        Some(_) => Ok(Ask::OnlyRead),
    }
}

/// What a request asks for whose path is that of posted manifests.
fn posted(alloc: Global, request: &Request<Bytes>) -> Result<Ask, NoMemory>
    ensures { IfOk result (λ ask. ask ≡ posted_ask request.now) }
{
    if request.method().as_str() != "POST" {
        return Ok(Ask::OnlyPosted);
    }
    match Posted::of(alloc, query_in(request), request.body().as_slice())? {
        Some(posted) => Ok(Ask::Posted(posted)),
        None => Ok(Ask::Malformed),
    }
}

/// The query of a request's target. It is empty where there is none.
fn query_in(request: &Request<Bytes>) -> &str
    ensures { result.now ≡ query_in request.now }
{
    match request.uri().query() {
        Some(query) => query,
        None => "",
    }
}

fn is_read(method: &Method) -> bool
    ensures { result ≡ is_read method.now }
{
    let method = method.as_str();
    method == "GET" || method == "HEAD"
}
