//! What holds of the kinds of requests.
ghost use Rattle.std.specs.Prelude.{◌≡◌, Some, slice_get};
ghost use Rattle.kdc_metrics.specs.Places.{kinds, place};
ghost use Rattle.kdc_metrics.specs.declared.kind.Kind as requests;

/// Does nothing. Its clauses say that each kind is counted at a place of its own, and stands in the text once.
pub fn places_of_kinds()
    // Promise (found, distinct): each kind has a place of its own.
    ensures found { (kind : requests.Kind) → slice_get kinds (place kind) ≡ Some kind }
    ensures distinct { (kind other : requests.Kind) → place kind ≡ place other → kind ≡ other }
{}
