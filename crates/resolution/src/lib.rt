// Trees with their heads found and their brackets dropped, as a definition, and what holds of it.
// Nothing is computed here: each function carries a theorem about the definitions in specs/, and takes constant time.
#![tactic(auto)]

ghost use Rattle.resolution.specs.Samples.{UnitSamples, SignatureSamples};
ghost use Rattle.resolution.specs.MoreSamples.{MoreSamples};
ghost use Rattle.resolution.specs.Statements.{HeadsAgree, UnitsNamed, SignaturesNamed, DeclaredOnce, HeadsAround, PlacesStand};

// The texts of the checker's samples are resolved as those samples have them, and more texts as they should be.
pub fn samples_stand()
    ensures { UnitSamples × SignatureSamples × MoreSamples }
{}

// A head is the one that the reader finds, in every scope.
pub fn heads_agree()
    ensures { HeadsAgree }
{}

// A resolved unit names the units that the reader finds in its text, in their order and at their places.
pub fn units_named()
    ensures { UnitsNamed }
{}

// The same of a signature alone.
pub fn signatures_named()
    ensures { SignaturesNamed }
{}

// A text in which the reader finds nothing declared again declares each sort and name once in a structure or signature.
pub fn declared_once()
    ensures { DeclaredOnce }
{}

// A text in which the reader finds no undeclared head mentions only binders and variables that are around it.
pub fn heads_around()
    ensures { HeadsAround }
{}

// At the place of each node of a resolved text stands the token with which it begins.
pub fn places_stand()
    ensures { PlacesStand }
{}
