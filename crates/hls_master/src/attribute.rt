// Attributes that are required, or whose values have to pass a test.
ghost use Rattle.std.specs.Prelude.{◌≡◌};
ghost use Rattle.hls_lines.specs.Attributes.{value_of};
ghost use Rattle.hls_master.specs.Faults.{answer, mapped};
ghost use Rattle.hls_master.specs.Renditions.{missing, text_at};

use crate::MasterFault;
use bridge_io::Place;
use hls_lines::Attributes;

/// The value of an attribute that is required.
pub(crate) fn required<'a>(
    attributes: &Attributes<'a>,
    name: &str,
    place: Place,
) -> Result<&'a str, MasterFault>
    ensures { mapped (λ value. value.now) result ≡ answer (missing place (value_of name.now attributes.now))
        (text_at name.now attributes.now) }
{
    match attributes.get(name) {
        None => Err(MasterFault::Missing(place)),
        Some(value) => Ok(value),
    }
}
