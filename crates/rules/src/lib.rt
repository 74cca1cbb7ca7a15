// The rules of the module language over any core, and what holds of them.
// Nothing is computed here: each function carries a theorem about the definitions in specs/, and takes constant time.

#![tactic(auto)]

ghost use Rattle.rules.specs.Statements.{NormalFormsExist, MatchingReflexive, MatchingTransitive, StrengtheningExact, DerivedIsSound, OneSignature, SixthRuleLast, LoadsAlike, DerivedExactly, OwnIsOne, OwnIsLeast, CheckDecides, FitDecides, CheckedIsOwn, RunDecides, RunFitDecides, MismatchIsFirst, NoMismatchMatches, RefusalsMean, KnownIsTidy, NumbersExact};
ghost use Rattle.rules.specs.Samples.{Samples};
ghost use Rattle.rules.specs.Errors.{ErrorsCaught};
ghost use Rattle.rules.specs.Runs.{FaultRuns};

use cores::interface::Core;
use cores::mini_ml::MiniMl;

// A type whose paths lead to types has exactly one normal form.
pub fn normal_forms_exist()
    ensures { NormalFormsExist }
{}

// A sound signature matches itself.
pub fn matching_is_reflexive()
    ensures { MatchingReflexive }
{}

// What matches a signature matches all that this one matches.
pub fn matching_is_transitive()
    ensures { MatchingTransitive }
{}

// The signature that a path has by the first rule matches exactly what the path offers.
pub fn strengthening_is_exact()
    ensures { StrengtheningExact }
{}

// What is derived is sound.
pub fn derived_is_sound<C: Core>(_core: &C)
    ensures { DerivedIsSound C.Core.rule }
{}

// Without the sixth rule a module has at most one signature.
pub fn one_signature<C: Core>(_core: &C)
    ensures { OneSignature C.Core.rule }
{}

// The sixth rule adds exactly the sound signatures that are matched.
pub fn sixth_rule_comes_last<C: Core>(_core: &C)
    ensures { SixthRuleLast C.Core.rule }
{}

// Units have derived signatures exactly when they have such without the sixth rule.
pub fn loads_alike<C: Core>(_core: &C)
    ensures { LoadsAlike C.Core.rule }
{}

// A signature is derived for a unit exactly when it is sound and the unit's own signature matches it.
pub fn derived_exactly<C: Core>(_core: &C)
    ensures { DerivedExactly C.Core.rule }
{}

// A unit has at most one own signature.
pub fn own_is_one<C: Core>(_core: &C)
    ensures { OwnIsOne C.Core.rule }
{}

// The own signature is the least of those derived for the unit.
pub fn own_is_least<C: Core>(_core: &C)
    ensures { OwnIsLeast C.Core.rule }
{}

// Units have derived signatures exactly when the checker accepts them.
pub fn check_decides<C: Core>(_core: &C)
    ensures { CheckDecides C.Core.rule }
{}

// A signature is derived for a unit exactly when the checker says that it fits.
pub fn fit_decides<C: Core>(_core: &C)
    ensures { FitDecides C.Core.rule }
{}

// The checker's signature of a unit and the unit's own match each other.
pub fn checked_is_own<C: Core>(_core: &C)
    ensures { CheckedIsOwn C.Core.rule }
{}

// Units have derived signatures exactly when the checker with faults accepts them, unless it refuses a size.
pub fn run_decides<C: Core>(_core: &C)
    ensures { RunDecides C.Core.rule }
{}

// A written signature is derived for an accepted unit exactly when it fits, unless a size is refused.
pub fn run_fit_decides<C: Core>(_core: &C)
    ensures { RunFitDecides C.Core.rule }
{}

// The mismatch that is told is the first, in the order of the signature wanted.
pub fn mismatch_is_first()
    ensures { MismatchIsFirst }
{}

// No mismatch is told exactly where a signature matches.
pub fn no_mismatch_matches()
    ensures { NoMismatchMatches }
{}

// A fault tells a question that the text asks, once those before are answered yes, and that is answered no.
pub fn refusals_mean<C: Core>(_core: &C)
    ensures { RefusalsMean C.Core.rule }
{}

// What accepted units make known is in normal form, and stands apart in the row.
pub fn known_is_tidy<C: Core>(_core: &C)
    ensures { KnownIsTidy C.Core.rule }
{}

// A rule takes normal forms exactly when it takes them with numbers for abstract types.
pub fn numbers_exact<C: Core>(_core: &C)
    ensures { NumbersExact C.Core.rule }
{}

// What the rules say of sample projects over mini-ML.
pub fn samples_hold()
    ensures { Samples }
{
    let core = MiniMl;
    check_decides(&core);
    fit_decides(&core);
}

// A core of first order breaks the law; parameters match against the results' direction; nested types are read at the longer path.
pub fn errors_are_caught()
    ensures { ErrorsCaught }
{
    let core = MiniMl;
    check_decides(&core);
}

// What the checker with faults answers for each kind of fault, and at the limits.
pub fn fault_runs()
    ensures { FaultRuns }
{}
