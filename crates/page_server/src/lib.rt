//! Files that are made from manifests on request, over HTTP: which file a request asks for, what is read for it, and the
//! response. A [`Maker`] makes the files of a manifest.
#![tactic(auto)]

mod ask;
mod known;
mod maker;
mod origin;
mod posted;
mod reply;
mod run;
mod shelf;
mod sources;
mod tagged;
mod terms;
mod wanted;
mod workshop;

pub use ask::Ask;
pub use maker::{Maker, Manifest, Page, SourceFile, Sources};
pub use origin::Origin;
pub use posted::Posted;
pub use run::serve_pages;
pub use terms::Terms;
pub use wanted::Wanted;
