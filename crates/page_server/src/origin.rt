// The origin server.
ghost use Rattle.std.specs.Prelude.{◌≡◌, ◌≤◌, OnOk};
ghost use Rattle.std.specs.Option.{option_copied};
ghost use Rattle.http_server.specs.Response.{IsBlank};
ghost use Rattle.page_server.specs.Answers as spec;
ghost use Rattle.page_server.specs.Requests.{ask_of};
ghost use Rattle.page_server.specs.Tags.{known_by, known_in};
ghost use Rattle.page_server.specs.declared.ask.Ask.TheVariants.{File};

use crate::workshop::Workshop;
use crate::{Ask, Maker, Manifest, Posted, Terms, Wanted, reply};
use bridge_io::{Name, NoMemory, Slurp, Store, Text};
use bytes::Bytes;
use http::{HeaderMap, HeaderValue, Request, StatusCode};
use http_server::{Response, Service};
use std::alloc::{AllocError, Global};

/// Answers requests for files that are made from the manifests in a store, and from posted ones.
#[derive(Drop)]
pub struct Origin<F: Store + Drop, M: Maker + Drop> {
    alloc: Global,
    terms: Terms,
    store: F,
    workshop: Workshop<M>,
}

impl<F: Store + Drop, M: Maker + Drop> Origin<F, M> {
    /// An origin of a store's manifests. It allocates nothing.
    pub fn new(alloc: Global, terms: Terms, store: F, maker: M) -> Origin<F, M>
        ensures terms { result.terms ≡ terms }
        ensures store { result.store ≡ store }
        ensures maker { result.workshop.maker ≡ maker }
    {
        Origin {
            alloc,
            terms,
            store,
            workshop: Workshop::new(alloc, maker),
        }
    }

    fn answer(&mut self, request: &Request<Bytes>, response: &mut Response) -> Result<(), NoMemory>
        requires { IsBlank response.old }
        ensures answer { OnOk result (spec.Answers
            (spec.site (M.making self.old.workshop.maker) self.old.terms (F.files self.old.store) (F.read_faults self.old.store))
            (F.read_faults self.new.store) (ask_of request.now) (spec.known_to request.now) response.new) }
        ensures stays { spec.Stays
            (spec.site (M.making self.old.workshop.maker) self.old.terms (F.files self.old.store) (F.read_faults self.old.store))
            (spec.site (M.making self.new.workshop.maker) self.new.terms (F.files self.new.store) (F.read_faults self.new.store)) }
    {
        match Ask::of(self.alloc, request)? {
            Ask::Nothing => reply::not_found(response),
            Ask::OnlyRead => { reply::not_allowed(HeaderValue::from_static("GET, HEAD"), response) }
            Ask::OnlyPosted => reply::not_allowed(HeaderValue::from_static("POST"), response),
            Ask::Malformed => reply::alone(StatusCode::BAD_REQUEST, response),
            Ask::File(wanted) => self.send(wanted, request.headers(), response),
            Ask::Posted(Posted { manifest, file }) => {
                self.send_page(manifest, &file, None, response)
            }
        }
    }

    /// Answers with a file that is made from a manifest in the store.
    fn send(
        &mut self,
        wanted: Wanted,
        headers: &HeaderMap,
        response: &mut Response,
    ) -> Result<(), NoMemory>
        requires { IsBlank response.old }
        ensures answer { OnOk result (spec.Answers
            (spec.site (M.making self.old.workshop.maker) self.old.terms (F.files self.old.store) (F.read_faults self.old.store))
            (F.read_faults self.new.store) (File wanted) (known_by headers.now) response.new) }
        ensures stays { spec.Stays
            (spec.site (M.making self.old.workshop.maker) self.old.terms (F.files self.old.store) (F.read_faults self.old.store))
            (spec.site (M.making self.new.workshop.maker) self.new.terms (F.files self.new.store) (F.read_faults self.new.store)) }
    {
        let Wanted { manifest, file } = wanted;
        let base = self.terms.base.as_str();
        match self.workshop.maker().read(&mut self.store, base, &manifest) {
            Ok(files) => {
                let base = Text::copy_of(self.alloc, base)?;
                let manifest = Manifest {
                    base,
                    name: manifest,
                    files,
                };
                self.send_page(manifest, &file, Some(headers), response)
            }
            Err(Slurp::Absent) => reply::not_found(response),
            Err(Slurp::TooLong(_)) => reply::too_long(response),
            Err(Slurp::Fault) => reply::alone(StatusCode::INTERNAL_SERVER_ERROR, response),
            Err(Slurp::Memory) => Err(NoMemory),
        }
    }

    /// Answers with a file that is made from a manifest.
    fn send_page(
        &mut self,
        manifest: Manifest,
        file: &Name,
        headers: Option<&HeaderMap>,
        response: &mut Response,
    ) -> Result<(), NoMemory>
        requires { IsBlank response.old }
        ensures answer { OnOk result (spec.HasReply (spec.page_reply self.old.terms.cache.bytes file.now
            (known_in (option_copied headers.entry)) ((M.making self.old.workshop.maker).page_of manifest file.now)) response.new) }
        ensures making { M.making self.new.workshop.maker ≡ M.making self.old.workshop.maker }
        ensures terms { self.new.terms ≡ self.old.terms }
        ensures store { self.new.store ≡ self.old.store }
    {
        self.workshop.prepare(manifest)?;
        let page = self.workshop.page(file)?;
        reply::page_reply(&self.terms.cache, file, headers, &page, response)
    }
}

impl<F: Store + Drop, M: Maker + Drop> Service for Origin<F, M> {
    ghost answers = { λ old request response new. spec.Step
        (spec.site (M.making old.workshop.maker) old.terms (F.files old.store) (F.read_faults old.store)) request response
        (spec.site (M.making new.workshop.maker) new.terms (F.files new.store) (F.read_faults new.store)) };

    fn call(
        &mut self,
        request: &Request<Bytes>,
        response: &mut Response,
    ) -> Result<(), AllocError> {
        if self.answer(request, response).is_err() {
            response.clear();
            response.status = StatusCode::SERVICE_UNAVAILABLE;
        }
        Ok(())
    }
}
