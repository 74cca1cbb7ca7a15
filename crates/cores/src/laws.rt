// What is proved of every core, and of the shipped cores. Each function does nothing; its contract is the law.
ghost use Rattle.std.specs.Prelude.{◌≡◌, length};
ghost use Rattle.cores.specs.Meaning.{StablePaths};
ghost use Rattle.cores.specs.MiniMl.{ml_line, ml_rule};
ghost use Rattle.cores.specs.MiniC.{c_line, c_rule};
ghost use Rattle.cores.specs.Laws.{AsWritten, FirstRefused, OwnAsWritten, OwnFirstRefused, BelowKept, FirstRefusedAbove, MarkSaysPtr, ShippedDistinct, FindsEach, FindsNoOther};
ghost use Rattle.cores.specs.Wrong.{WrongBreaksLaw};

use crate::interface::Core;
use crate::layers::{Layer, Layered};

// What a core's rule gives is also given after paths are replaced by types.
pub fn paths_may_be_replaced<C: Core>(_core: &C)
    ensures { StablePaths C.Core.rule }
{}

// Each word of a stack without repeated words is found by its name, and no other name is found.
pub fn words_are_found<C: Core>(_core: &C)
    ensures each { FindsEach C.Core.words }
    ensures only { FindsNoOther C.Core.words }
{}

// Mini-ML gives what its lines write, and refuses at the first argument with which no accepted list begins.
pub fn mini_ml_follows_its_lines()
    ensures gives { AsWritten 0 ml_line ml_rule }
    ensures refuses { FirstRefused (λ c. c.number) ml_rule }
{}

// So does mini-C, whose mark says whether its line writes `ptr` there.
pub fn mini_c_follows_its_lines()
    ensures gives { AsWritten 0 c_line c_rule }
    ensures refuses { FirstRefused (λ c. c.position) c_rule }
    ensures marks { MarkSaysPtr }
{}

// So does a layer for its own operators; a cause from below is kept whole.
pub fn layer_follows_its_lines<L: Layer, C: Core>(_stack: &Layered<L, C>)
    ensures gives { OwnAsWritten L.Layer.entries (length C.Core.words) C.Core.rule }
    ensures refuses { OwnFirstRefused L.Layer.entries (length C.Core.words) C.Core.rule }
    ensures keeps { BelowKept L.Layer.entries (length C.Core.words) C.Core.rule }
    ensures all { FirstRefusedAbove L.Layer.entries (length C.Core.words) C.Core.rule }
{}

// A core that refuses functions returning functions does not keep the law.
pub fn wrong_core_breaks_the_law()
    ensures { WrongBreaksLaw }
{}

// No word occurs twice in a shipped stack.
pub fn shipped_words_are_distinct()
    ensures { ShippedDistinct }
{}
