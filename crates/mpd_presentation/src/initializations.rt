// The URLs of init segments.
ghost use Rattle.std.specs.Prelude.{◌≡◌, true, IfOk, IfSome, Ok};
ghost use Rattle.bridge_io.specs.Answer.{Gives};
ghost use Rattle.url_parts.specs.Addresses.{resolve, refusal};

use crate::by_length::{HasLength, keep};
use bridge_io::{NoMemory, Text};
use std::alloc::Global;
use url_parts::{Address, Base, UrlFault};

/// The longest reference, in bytes, that is kept beside others: names by a template may be as long as the MPD.
const MAX_KEPT_LEN: usize = 2048;

/// The URLs of init segments, reused where a Representation has the same as the one before it, or as the one at its place in
/// the Period before.
#[derive(Drop)]
pub(crate) struct Initializations {
    /// Those of the Period in order, and behind them what is left of the Period before. Representations that follow one
    /// another share one.
    all: Vec<Resolved>,
    /// How many of them are of the Period.
    count: usize,
    /// Those with longer references, by length.
    long: Vec<Resolved>,
}

/// The URL that a reference gave.
#[derive(Drop)]
struct Resolved {
    from: Base,
    reference: Text,
    to: Address,
    ghost gives: { resolve from reference ≡ Ok to },
}

impl Initializations {
    /// None yet.
    pub(crate) fn none(alloc: Global) -> Initializations {
        Initializations {
            all: Vec::new(alloc),
            count: 0,
            long: Vec::new(alloc),
        }
    }

    /// Begins a Period.
    pub(crate) fn begin_period(&mut self) {
        self.count = 0;
    }

    /// The URL by a reference against a base.
    pub(crate) fn address(
        &mut self,
        alloc: Global,
        base: &Base,
        reference: &str,
    ) -> Result<Address, UrlFault>
        ensures { Gives (λ address. address) refusal result (resolve base.now reference.now) }
    {
        if let Some(address) = self.known(alloc, base, reference)? {
            return Ok(address);
        }
        let resolved = Resolved::of(alloc, base, reference)?;
        let address = resolved.to.copy(alloc)?;
        self.keep(resolved)?;
        Ok(address)
    }

    /// The URL, where it is that of the last Representation, or of the next one in the Period before.
    fn known(
        &mut self,
        alloc: Global,
        base: &Base,
        reference: &str,
    ) -> Result<Option<Address>, NoMemory>
        ensures { IfOk result (λ known. IfSome known (λ address. resolve base.now reference.now ≡ Ok address)) }
    {
        if let Some(next) = address_of(alloc, self.all.get(self.count), base, reference)? {
            self.count = self.count.saturating_add(1);
            return Ok(Some(next));
        }
        let last = self.all.get(self.count.saturating_sub(1));
        if let Some(last) = address_of(alloc, last, base, reference)? {
            return Ok(Some(last));
        }
        self.known_long(alloc, base, reference)
    }

    /// The URL, where it is kept for a longer reference.
    fn known_long(
        &self,
        alloc: Global,
        base: &Base,
        reference: &str,
    ) -> Result<Option<Address>, NoMemory>
        ensures { IfOk result (λ known. IfSome known (λ address. resolve base.now reference.now ≡ Ok address)) }
    {
        for long in self.long.iter() {
            if let Some(address) = address_of(alloc, Some(long), base, reference)? {
                return Ok(Some(address));
            }
        }
        Ok(None)
    }

    /// Keeps one that wasn't known.
    fn keep(&mut self, resolved: Resolved) -> Result<(), NoMemory> {
        if resolved.reference.as_str().len() > MAX_KEPT_LEN {
            return keep(&mut self.long, resolved);
        }
        match self.all.get_mut(self.count) {
            Some(former) => *former = resolved,
            None => self.all.push(resolved)?,
        }
        self.count = self.count.saturating_add(1);
        Ok(())
    }
}

impl Resolved {
    fn of(alloc: Global, from: &Base, reference: &str) -> Result<Resolved, UrlFault>
        ensures { Gives (λ resolved. resolved.to) refusal result (resolve from.now reference.now) }
    {
        let to = from.join(alloc, reference)?;
        let from = from.copy(alloc)?;
        let reference = Text::copy_of(alloc, reference)?;
        Ok(Resolved {
            from,
            reference,
            to,
        })
    }
}

impl HasLength for Resolved {
    fn length(&self) -> usize {
        self.reference.as_str().len()
    }
}

/// The URL that a reference gave, where it was this one.
fn address_of(
    alloc: Global,
    resolved: Option<&Resolved>,
    base: &Base,
    reference: &str,
) -> Result<Option<Address>, NoMemory>
    ensures { IfOk result (λ known. IfSome known (λ address. resolve base.now reference.now ≡ Ok address)) }
{
    match resolved {
        Some(resolved)
            if resolved.from.as_str() == base.as_str()
                && resolved.reference.as_str() == reference => {
            Ok(Some(resolved.to.copy(alloc)?))
        }
        _ => Ok(None),
    }
}
