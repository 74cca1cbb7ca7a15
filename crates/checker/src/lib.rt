// The checker of units as a definition, and what holds of it over every core.
// Nothing is computed here: each function carries a theorem about the definitions in specs/, and takes constant time.

#![tactic(auto)]

ghost use Rattle.checker.specs.Samples.{CheckSamples, FitSamples};
ghost use Rattle.checker.specs.Limits.{LimitSamples};
ghost use Rattle.checker.specs.Failing.{FirstFailure, MatchesItself};
ghost use Rattle.checker.specs.Statements.{PathsLeadAlike, RefusalsMean, NumbersArePlaces, CheckDecides, AcceptanceLaw, FitLaw};

use cores::interface::Core;

// The samples over mini-ML are answered as they should be: each fault, and each cause.
pub fn samples_stand()
    ensures { CheckSamples × FitSamples }
{}

// Sizes are refused one past their limits and not at them.
pub fn limits_stand()
    ensures { LimitSamples }
{}

// A refused match tells the first component that fails, in the order of the signature wanted, and why.
pub fn first_failure_is_told()
    ensures { FirstFailure }
{}

// A signature matches itself.
pub fn signature_matches_itself()
    ensures { MatchesItself }
{}

// A path leads in a scope where it leads in the environment for which the scope stands.
pub fn paths_lead_alike()
    ensures { PathsLeadAlike }
{}

// Where the core refuses numbered types, it refuses the normal forms for which they stand.
pub fn refusals_mean<C: Core>(_core: &C)
    ensures { RefusalsMean C.Core.rule }
{}

// The number of an abstract type is the place of its component in the row of words.
pub fn numbers_are_places<C: Core>(_core: &C)
    ensures { NumbersArePlaces C.Core.rule }
{}

// Accepted units have signatures derived without the sixth rule, for which the checker's stand; refused ones, if not by size, have none.
pub fn check_decides<C: Core>(_core: &C)
    ensures { CheckDecides C.Core.rule }
{}

// A check that does not answer size accepts exactly when the six rules derive signatures for all units.
pub fn acceptance_law<C: Core>(_core: &C)
    ensures { AcceptanceLaw C.Core.rule }
{}

// Fit, if it does not answer size, says yes exactly of the signatures that the six rules derive for the unit.
pub fn fit_law<C: Core>(_core: &C)
    ensures { FitLaw C.Core.rule }
{}
