// Templates of segment names, and shorter ones that give the same URLs.
ghost use Rattle.std.specs.Prelude.{◌≡◌, IfOk, IfSome};
ghost use Rattle.timeline.specs.MediaTemplates.{IsLineOf, IsShortFor};

use crate::shorter_template::{is_path, line_of, short_of};
use bridge_io::NoMemory;
use std::alloc::Global;
use std::marker::Model;
use template_ids::Template;

/// A template of segment names (ISO/IEC 23009-1, 5.3.9.4.4). Where its text has tabs, line ends, or segments that `..` takes
/// back, a shorter one that gives the same URLs is made once for all Representations that have it.
#[derive(Drop)]
pub struct MediaTemplate {
    template: Template,
    /// The template without tabs and line ends.
    line: Option<Template>,
    /// The template without the segments that are taken back, for each id that is a path.
    short: Option<Template>,
}

impl Model for MediaTemplate {
    ghost use Rattle.std.specs.Prelude.{ℕ, List, IfSome};
    ghost use Rattle.timeline.specs.MediaTemplates.{IsLineOf, IsShortFor};

    ghost Value = { List ℕ };

    ghost view = { λ m. m.template };

    ghost invariant = { λ m. IfSome m.line (IsLineOf m.template) × IfSome m.short (IsShortFor m.template) };
}

impl MediaTemplate {
    ghost use Rattle.timeline.specs.MediaTemplates.{GivesSame};

    /// A template, with shorter ones where they are needed.
    pub fn of(alloc: Global, template: Template) -> Result<MediaTemplate, NoMemory>
        ensures { IfOk result (λ media. media ≡ template) }
    {
        let line = line_of(alloc, &template)?;
        let short = short_by(alloc, &template, &line)?;
        Ok(MediaTemplate {
            template,
            line,
            short,
        })
    }

    /// The same template again. It shares the texts.
    pub fn share(&self) -> Result<MediaTemplate, NoMemory>
        ensures { IfOk result (λ media. media ≡ self.now) }
    {
        Ok(MediaTemplate {
            template: self.template.share()?,
            line: share(&self.line)?,
            short: share(&self.short)?,
        })
    }

    /// The template itself.
    pub fn template(&self) -> &Template
        ensures { result.now ≡ self.now }
    {
        &self.template
    }

    /// The shortest template that gives the same URLs with an id.
    pub fn for_id(&self, id: &str) -> &Template
        ensures { GivesSame self.now id.now result.now }
    {
        if let Some(short) = &self.short {
            if is_path(id) {
                return short;
            }
        }
        match &self.line {
            Some(line) => line,
            None => &self.template,
        }
    }
}

/// The template without the segments that are taken back, made of the one without tabs and line ends where there is one.
fn short_by(
    alloc: Global,
    template: &Template,
    line: &Option<Template>,
) -> Result<Option<Template>, NoMemory>
    requires { IfSome line.now (IsLineOf template.now) }
    ensures { IfOk result (λ short. IfSome short (IsShortFor template.now)) }
{
    match line {
        Some(line) => short_of(alloc, line),
        None => short_of(alloc, template),
    }
}

fn share(template: &Option<Template>) -> Result<Option<Template>, NoMemory>
    ensures { IfOk result (λ shared. shared ≡ template.now) }
{
    match template {
        Some(template) => Ok(Some(template.share()?)),
        None => Ok(None),
    }
}
