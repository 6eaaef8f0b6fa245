//! A law of the places of values, which follows from the definitions alone.
ghost use Rattle.term_store.specs.Places.{PlacesTellApart, PlacesTellValues};

/// Two variables whose classes have values are equal exactly where the first of these values are told at one place, and a
/// variable has a value exactly where its class has such a place. Nothing: it holds a law.
pub fn place_law()
    ensures apart { PlacesTellApart }
    ensures values { PlacesTellValues }
{
    oz_laws::tests_same();
}
