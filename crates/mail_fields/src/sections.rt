//! The sections of a header field's value, which semicolons end.

ghost use Rattle.std.specs.Prelude.{◌≡◌, ◌≤◌, ◌∷◌, length, take, drop};
ghost use Rattle.mail_fields.specs.ElementReading.{more_sections};
ghost use Rattle.mail_fields.specs.HeaderValues.{is_semicolon, sections_of};

use crate::elements::Element;

/// The number of elements before the first semicolon, or of all.
pub fn section_size(elements: &[Element]) -> usize
    ensures sections { sections_of elements.now
        ≡ take result elements.now ∷ more_sections (drop result elements.now) }
    ensures within { result ≤ length elements.now }
{
    for size in 0..elements.len() {
        if is_semicolon(&elements[size]) {
            return size;
        }
    }
    elements.len()
}

/// Whether an element is a semicolon.
pub fn is_semicolon(element: &Element) -> bool
    ensures { result ≡ is_semicolon element.now }
{
    match element {
        Element::Octet(octet) => *octet == b';',
        Element::Blank => false,
        Element::Comment(_) => false,
        Element::Quoted(_) => false,
    }
}
