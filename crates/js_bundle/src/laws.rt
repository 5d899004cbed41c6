//! Laws of the definitions that this crate's contracts speak of. Calling one does nothing.
ghost use Rattle.js_bundle.specs.FindingLaws.{EachIsFound};
ghost use Rattle.js_bundle.specs.NameLaws.{NamesOneResource, NamesOnePlace};

/// In documents that are accepted one resource at most has a URI (JSON Schema Core, section 8.2.1).
pub fn a_uri_names_one_resource()
    ensures { NamesOneResource }
{}

/// In documents that are accepted a URI names one place at most, by a pointer or by an anchor (JSON Schema Core,
/// sections 8.2.2 and 9.2.1).
pub fn a_uri_names_one_place()
    ensures { NamesOnePlace }
{}

/// In documents that are accepted, what a keyword of a place holds is found below the place, and each reference of a
/// place has its target (JSON Schema Core, sections 8.2.3, 10 and 11).
pub fn what_is_held_and_named_is_found()
    ensures { EachIsFound }
{}
