//! Laws of the definitions that this crate's contracts speak of. Calling one does nothing.
ghost use Rattle.js_bundle.specs.PlaceLaws.{ListsEachOnce, ListsTheirPlaces, ListsTheirsOnce, ListsThePlaces};
ghost use Rattle.js_bundle.specs.ResourceNumber.{NumbersResources, ScopeByNumbers};

/// The list of a document's places has exactly the places: the least set that has the document's root and is closed
/// under what keywords hold.
pub fn the_list_has_the_places()
    ensures { ListsThePlaces }
{}

/// The list of a document's places has each place once.
pub fn the_list_has_each_once()
    ensures { ListsEachOnce }
{}

/// The list of a bundle's places has exactly the places of its documents, each under its document's number and URI.
pub fn the_list_has_the_places_of_all()
    ensures { ListsTheirPlaces }
{}

/// The list of a bundle's places has each place once: no two are at one pointer of one document.
pub fn the_list_has_each_of_all_once()
    ensures { ListsTheirsOnce }
{}

/// Each place has the number of its resource, and two places have the same number exactly where they are of one
/// resource (JSON Schema Core, section 8.2.1).
pub fn a_number_determines_a_resource()
    ensures { NumbersResources }
{}

/// A dynamic scope given by the numbers of its resources, repeated neighbours left out, leads to what the path of all
/// places leads to (JSON Schema Core, sections 7.1 and 8.2.3.2).
pub fn numbers_determine_the_dynamic_scope()
    ensures { ScopeByNumbers }
{}
