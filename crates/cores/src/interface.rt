// The interface of core languages: what their words are, what their rule answers, and what an implementation owes.
ghost use Rattle.std.specs.Prelude.{◌≡◌, ℕ, ◌^◌, ◌≤◌, List, length, Some};
ghost use Rattle.std.specs.Option.{option_map};
ghost use Rattle.types.specs.Types.{Ty};
ghost use Rattle.cores.specs.Meaning.{Word, Outcome, ProperWords, Stable, lookup, label_name};
ghost use Rattle.cores.specs.Answers.{reply, leaves, question_number, ForCause, CauseChanged};
ghost use Rattle.cores.specs.declared.interface.Operation.{Operation};

// What a word is: a label with so many parts, or an operator with so many arguments.
#[derive(Clone, Copy, PartialEq, Eq, Debug)]
pub enum Kind {
    Label(u8),
    Operator(u8),
}

// A word that a name was found to be: its number among the words, and its kind.
#[derive(Clone, Copy, PartialEq, Eq, Debug)]
pub struct Found {
    pub number: u32,
    pub kind: Kind,
}

// What a rule is asked about: the integer literal, the function, or an operator by its number among the words.
#[derive(Clone, Copy, PartialEq, Eq, Debug)]
pub enum Operation {
    Literal,
    Function,
    Operator(u32),
}

// Why there is no type: the core's cause, a type of over 32 labels and leaves, arguments that are no whole types,
// or a result slice that is too short. The first of these that holds is told, in this order:
// arguments, cause, size, short.
#[derive(Clone, Copy, PartialEq, Eq, Debug)]
pub enum Refusal<K> {
    Cause(K),
    Size,
    Arguments,
    Short,
}

impl<K> Refusal<K> {
    // The same refusal, its cause changed by `f`. Constant time but for `f`.
    pub fn map_cause<L, F: FnOnce(K) -> L>(self, f: F) -> Refusal<L>
        requires { ForCause self (F.pre f) }
        ensures { CauseChanged (F.post f) self result }
    {
        match self {
            Refusal::Cause(cause) => Refusal::Cause(f(cause)),
            Refusal::Size => Refusal::Size,
            Refusal::Arguments => Refusal::Arguments,
            Refusal::Short => Refusal::Short,
        }
    }

    // The number of the question to which a refusal says no, if it belongs to one. Constant time.
    // A method and no `From`: `Option<u8>` would not say which number it is.
    pub fn question_number(&self) -> Option<u8>
        ensures { result ≡ question_number self.now }
    {
        match self {
            Refusal::Cause(_) => Some(13),
            Refusal::Size => Some(16),
            Refusal::Arguments | Refusal::Short => None,
        }
    }
}

// A core language. Its meaning, the words and the rule, is of the type and of no value, so no call alters it.
pub trait Core {
    type Cause: Copy;

    // labels and operators, by their numbers
    ghost words: { List Word };

    // for an operation and types in normal form, a type or a cause
    ghost rule: { Operation → List Ty → Outcome Self.Cause };

    // How many words there are. Constant time for each layer.
    fn count(&self) -> u32
        ensures { result ≡ length words };

    // The first word of this name. Linear in the words of the stack.
    fn find(&self, name: &[u8]) -> Option<Found>
        ensures { result ≡ lookup words name.now };

    // The name of the label of this number. Constant time for each layer.
    fn label_name(&self, label: u32) -> Option<&[u8]>
        ensures { option_map (λ x. x.now) result ≡ label_name words label };

    // What the rule gives for argument types that stand one behind the other, written to the front of `out`, with its length;
    // a refusal leaves `out` as it was. Linear in the words read and written.
    fn answer(
        &self,
        operation: Operation,
        args: &[u32],
        out: &mut [u32],
    ) -> Result<usize, Refusal<Self::Cause>>
        ensures result { result ≡ reply rule operation args.now (length out.old) }
        ensures left { out.new ≡ leaves rule operation args.now out.old };

    ghost proper: { ProperWords words };

    // a word of memory has room for these label numbers
    ghost few: { length words ≤ 2 ^ 30 };

    ghost stable: { Stable (length words) rule };
}
