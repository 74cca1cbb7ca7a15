// Layers: a core with words and lines of its own over any other core.
ghost use Rattle.std.specs.Prelude.{◌≡◌, ℕ, ◌+◌, ◌^◌, ◌≤◌, Bool, List, map, length, nat_le};
ghost use Rattle.std.specs.Option.{option_map};
ghost use Rattle.cores.specs.Meaning.{ProperWords, lookup, label_name};
ghost use Rattle.cores.specs.Lines.{Entry, word, line_from, Closed, Inside, OnEntries};
ghost use Rattle.cores.specs.Steps.{row_items, itemized};
ghost use Rattle.cores.specs.Layers.{cause_shown, above, own_cause, own, layer_words, layer_rule};
ghost use Rattle.cores.specs.declared.layers.LayerCause.TheVariants.{Below};
ghost use Rattle.cores.specs.Stacks.{layer_proper, layer_few, layer_stable};

use crate::interface::{Core, Found, Operation, Refusal};
use crate::lines::{Line, Position, answer_line};
use std::fmt;

// A layer's cause: the position of the first wrong argument of an operator of its own, or the whole cause from below.
#[derive(Clone, Copy, PartialEq, Eq, Debug)]
pub enum LayerCause<K> {
    Own(u32),
    Below(K),
}

// A cause is shown with where it is from: `own:` and the position, or `below:` and the cause from below.
impl<K: fmt::Display> fmt::Display for LayerCause<K> {
    ghost output = { cause_shown K.Display.output };

    fn fmt<W: fmt::Write>(&self, f: &mut fmt::Formatter<W>) -> fmt::Result {
        match self {
            LayerCause::Own(position) => write!(f, "own:{position}"),
            LayerCause::Below(cause) => write!(f, "below:{cause}"),
        }
    }
}

// The whole cause from below.
impl<K> From<K> for LayerCause<K> {
    ghost from_gives = { λ k r. r ≡ Below k };

    fn from(cause: K) -> LayerCause<K> {
        LayerCause::Below(cause)
    }
}

// A refusal from below, its cause kept whole.
impl<K: Copy> From<Refusal<K>> for Refusal<LayerCause<K>> {
    ghost from_gives = { λ k r. r ≡ above k };

    fn from(refusal: Refusal<K>) -> Refusal<LayerCause<K>> {
        refusal.map_cause(LayerCause::from)
    }
}

// What a layer adds: its own words, numbered from 0, and the lines of its operators.
pub trait Layer {
    ghost entries: { List Entry };

    // How many own words there are. Constant time.
    fn own_count(&self) -> u32
        ensures { result ≡ length entries };

    // The first own word of this name. Linear in the own words.
    fn own_word(&self, name: &[u8]) -> Option<Found>
        ensures { result ≡ lookup (map word entries) name.now };

    // The name of an own label. Constant time.
    fn own_label(&self, label: u32) -> Option<&[u8]>
        ensures { option_map (λ x. x.now) result ≡ label_name (map word entries) label };

    // The line of an own operator. Constant time.
    fn own_line(&self, operator: u32) -> Option<Line<'_>>
        ensures { option_map (λ l. row_items l) result ≡ option_map (λ l. itemized l) (line_from 0 entries operator) };

    ghost proper: { ProperWords (map word entries) };

    // the arguments of each line settle what it gives
    ghost closed: { (b : ℕ) → OnEntries (Closed b) entries };

    // lines write own labels only
    ghost inside: { (b : ℕ) → OnEntries (Inside (b + length entries) b) entries };
}

// A layer over a core. Where label numbers would pass 30 bits the layer adds nothing.
#[derive(Clone, Copy, PartialEq, Eq, Debug)]
pub struct Layered<L, C> {
    pub layer: L,
    pub below: C,
}

// So many words have label numbers.
const ROOM: u32 = 1 << 30;

impl<L: Layer, C: Core> Layered<L, C> {
    // A refusal of an operator of the layer's own.
    // A method: `self` names the core below, without which a call in a closure does not say the type of its causes.
    fn own_refusal(&self, refusal: Refusal<Position>) -> Refusal<LayerCause<C::Cause>>
        ensures { result ≡ own_cause refusal }
    {
        refusal.map_cause(|position| LayerCause::Own(position.number))
    }

    // Whether there is room for the layer's own words above so many others. Asked for in each call: what is left without room differs.
    fn has_room(&self, base: u32) -> bool
        ensures { result ≡ nat_le (base + length L.Layer.entries) 1073741824 }
    {
        base.checked_add(self.layer.own_count())
            .is_some_and(|count| count <= ROOM)
    }

    // The line of the operator of this number in the stack, where `base` words stand below the layer's own.
    fn line_at(&self, base: u32, number: u32) -> Option<Line<'_>>
        requires { base ≤ number }
        ensures { option_map (λ l. row_items l) result ≡ option_map (λ l. itemized l) (line_from base (own L.Layer.entries base) number) }
    {
        if self.has_room(base) {
            self.layer.own_line(number - base)
        } else {
            None
        }
    }
}

impl<L: Layer, C: Core> Core for Layered<L, C> {
    type Cause = LayerCause<C::Cause>;

    ghost words = { layer_words L.Layer.entries C.Core.words };

    ghost rule = { layer_rule L.Layer.entries (length C.Core.words) C.Core.rule };

    ghost proper = { layer_proper L.Layer.entries C.Core.words C.Core.proper L.Layer.proper };

    ghost few = { layer_few L.Layer.entries C.Core.words C.Core.few };

    ghost stable = { layer_stable L.Layer.entries C.Core.words C.Core.rule L.Layer.closed L.Layer.inside C.Core.stable };

    fn count(&self) -> u32 {
        let base = self.below.count();
        if self.has_room(base) {
            base + self.layer.own_count()
        } else {
            base
        }
    }

    fn find(&self, name: &[u8]) -> Option<Found> {
        if let Some(found) = self.below.find(name) {
            return Some(found);
        }
        let base = self.below.count();
        if !self.has_room(base) {
            return None;
        }
        let found = self.layer.own_word(name)?;
        Some(Found {
            number: base + found.number,
            ..found
        })
    }

    fn label_name(&self, label: u32) -> Option<&[u8]> {
        let base = self.below.count();
        if label < base {
            self.below.label_name(label)
        } else if self.has_room(base) {
            self.layer.own_label(label - base)
        } else {
            None
        }
    }

    fn answer(
        &self,
        operation: Operation,
        args: &[u32],
        out: &mut [u32],
    ) -> Result<usize, Refusal<LayerCause<C::Cause>>> {
        let base = self.below.count();
        match operation {
            Operation::Operator(number) if number >= base => {
                answer_line(self.line_at(base, number), base, args, out).map_err(
                    |refusal| self.own_refusal(refusal),
                )
            }
            _ => Ok(self.below.answer(operation, args, out)?),
        }
    }
}
