// The check of a whole project, and fit, as definitions over units whose heads are found, and what holds of them over every core.
// Nothing is computed here: each function carries a theorem about the definitions in specs/, and takes constant time.
#![tactic(auto)]

ghost use Rattle.project_rules.specs.Samples.{OrderSamples, CheckSamples, FitSamples};
ghost use Rattle.project_rules.specs.Statements.{ViewMeans, AcceptanceLaw, OrderLaw, AnswersMean, ArrangingLaw, FitAnywhere, FitLaw, FitAnswersMean, ListOrderFree};

use cores::interface::Core;

// The sample projects over mini-ML are answered as they should be.
pub fn samples_stand()
    ensures { OrderSamples × CheckSamples × FitSamples }
{}

// What the load order sees of a project is what the heads of its units say.
pub fn view_means()
    ensures { ViewMeans }
{}

// A check that does not answer size accepts exactly when the project's signatures are derived by the six rules, unit by unit in load order.
pub fn acceptance_law<C: Core>(_core: &C)
    ensures { AcceptanceLaw C.Core.rule }
{}

// The load order of an accepted project has each unit once, behind every unit that it names, and is the least such order.
pub fn order_law<C: Core>(_core: &C)
    ensures { OrderLaw C.Core.rule }
{}

// Refusals 10 and 11 tell the unit and the place that they should, and then no load order exists; any other tells the first unit in load order
// that is not right, and its first fault.
pub fn answers_mean<C: Core>(_core: &C)
    ensures { AnswersMean C.Core.rule }
{}

// The check of up to 16 units follows from what arranging answers for any view of them that agrees with the project's.
pub fn arranging_law<C: Core>(_core: &C)
    ensures { ArrangingLaw C.Core.rule }
{}

// Fit to a unit of an accepted project, if it does not answer size, says yes exactly of the signatures that the six rules derive for the unit
// with the units before it known, also where the words of the text begin at another place behind those of the unit.
pub fn fit_law<C: Core>(_core: &C)
    ensures { FitLaw C.Core.rule × FitAnywhere C.Core.rule }
{}

// Refusals 8 and 10 of fit mean what they say, and any other is 12, 15 or 16.
pub fn fit_answers_mean<C: Core>(_core: &C)
    ensures { FitAnswersMean C.Core.rule }
{}

// The order of the list of units matters neither to the check nor, where it accepts, to fit.
pub fn list_order_free<C: Core>(_core: &C)
    ensures { ListOrderFree C.Core.rule }
{}
