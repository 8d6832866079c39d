//! Laws of readings at other places.
ghost use Rattle.educe_grammar_places.specs.Told.{PlacesLaws};

/// What is read of tokens is also read of their copies, at other places or at none, and each part
/// has exactly one counterpart at no place.
pub fn places_laws()
    ensures { PlacesLaws }
{}
