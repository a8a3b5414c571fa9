//! Laws of patterns.
ghost use Rattle.segment_forms.specs.{Media.{LiteralsName, TemplatesName}, Patterns.AddressesAreGiven};

/// Where the addresses of segments have a pattern, it gives each of them by its number.
pub fn addresses_are_given()
    ensures { AddressesAreGiven }
{}

/// Where the addresses of segments have a pattern, its media text is a template with `$Number$` and without `$Time$`, which names
/// each of them by its number.
pub fn templates_name()
    ensures { TemplatesName }
{}

/// A text with each `$` written twice is a template without `$Number$` and `$Time$`, which names the text.
pub fn literals_name()
    ensures { LiteralsName }
{}
