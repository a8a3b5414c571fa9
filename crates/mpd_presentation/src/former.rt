// Caching across Representations.
ghost use Rattle.std.specs.Prelude.{◌≡◌, Ok};
ghost use Rattle.bridge_io.specs.Answer.{Gives};
ghost use Rattle.mpd_rules.specs.Views.{bases_left};
ghost use Rattle.template_ids.specs.Templates.{template_of, refusal as template_refusal};
ghost use Rattle.url_parts.specs.Addresses.{chain, resolve, refusal as url_refusal};

use crate::by_length::{HasLength, keep};
use crate::initializations::Initializations;
use bridge_io::{NoMemory, Text};
use mpd_rules::BaseWalk;
use std::alloc::Global;
use std::mem;
use template_ids::{Template, TemplateFault};
use timeline::MediaTemplate;
use url_parts::{Address, Base, UrlFault};

/// The results for Representations before, reused where the next one has the same.
#[derive(Drop)]
pub(crate) struct Former {
    /// The templates of segment URLs, by length.
    media: Vec<MediaTemplate>,
    /// The templates of init segments' URLs, by length.
    init: Vec<MediaTemplate>,
    /// The results of the BaseURLs of the previous one, from the MPD down.
    steps: Vec<Step>,
    initializations: Initializations,
}

/// The base that a BaseURL gave.
#[derive(Drop)]
struct Step {
    from: Base,
    reference: Text,
    to: Base,
    ghost gives: { resolve from reference ≡ Ok to },
}

impl Former {
    /// The empty cache.
    pub(crate) fn none(alloc: Global) -> Former {
        Former {
            media: Vec::new(alloc),
            init: Vec::new(alloc),
            steps: Vec::new(alloc),
            initializations: Initializations::none(alloc),
        }
    }

    /// Begins a Period.
    pub(crate) fn begin_period(&mut self) {
        self.initializations.begin_period();
    }

    /// The template of the segment URLs.
    pub(crate) fn media(
        &mut self,
        alloc: Global,
        text: &str,
    ) -> Result<MediaTemplate, TemplateFault>
        ensures { Gives (λ template. template) template_refusal result (template_of text.now) }
    {
        template(alloc, &mut self.media, text)
    }

    /// The template of the init segment's URL.
    pub(crate) fn init(&mut self, alloc: Global, text: &str) -> Result<MediaTemplate, TemplateFault>
        ensures { Gives (λ template. template) template_refusal result (template_of text.now) }
    {
        template(alloc, &mut self.init, text)
    }

    /// The base that references give, each resolved against the one before.
    pub(crate) fn base(
        &mut self,
        alloc: Global,
        url: &Base,
        references: BaseWalk<'_>,
    ) -> Result<Base, UrlFault>
        ensures { Gives (λ base. base) url_refusal result (chain url.now (bases_left references.entry)) }
    {
        let mut base = url.copy(alloc)?;
        let mut former = mem::replace(&mut self.steps, Vec::new(alloc)).into_iter();
        for reference in references {
            let step = Step::of(alloc, former.next(), &base, reference)?;
            base = step.to.copy(alloc)?;
            self.keep(step)?;
        }
        Ok(base)
    }

    fn keep(&mut self, step: Step) -> Result<(), NoMemory> {
        self.steps.push(step)?;
        Ok(())
    }

    /// The URL of the init segment, by its reference against a base.
    pub(crate) fn address(
        &mut self,
        alloc: Global,
        base: &Base,
        reference: &str,
    ) -> Result<Address, UrlFault>
        ensures { Gives (λ address. address) url_refusal result (resolve base.now reference.now) }
    {
        self.initializations.address(alloc, base, reference)
    }
}

impl Step {
    fn of(
        alloc: Global,
        former: Option<Step>,
        from: &Base,
        reference: &str,
    ) -> Result<Step, UrlFault>
        ensures { Gives (λ step. step.to) url_refusal result (resolve from.now reference.now) }
    {
        if let Some(step) = former {
            if step.from.as_str() == from.as_str() && step.reference.as_str() == reference {
                return Ok(step);
            }
        }
        let to = from.deeper(alloc, reference)?;
        let from = from.copy(alloc)?;
        let reference = Text::copy_of(alloc, reference)?;
        Ok(Step {
            from,
            reference,
            to,
        })
    }
}

impl HasLength for MediaTemplate {
    fn length(&self) -> usize {
        self.template().as_str().len()
    }
}

/// The template of a text, made anew only where none is kept for it.
fn template(
    alloc: Global,
    kept: &mut Vec<MediaTemplate>,
    text: &str,
) -> Result<MediaTemplate, TemplateFault>
    ensures { Gives (λ template. template) template_refusal result (template_of text.now) }
{
    for media in kept.iter() {
        if media.template().as_str() == text {
            return Ok(media.share()?);
        }
    }
    let media = MediaTemplate::of(alloc, Template::read(alloc, text)?)?;
    keep(kept, media.share()?)?;
    Ok(media)
}
