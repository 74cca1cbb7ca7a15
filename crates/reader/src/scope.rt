// What names are declared as, and how declarations are handed on while a text is read.
ghost use Rattle.std.specs.Prelude.{◌≡◌};
ghost use Rattle.reader.specs.Annotate.{sought_sort};

// The sort of a component.
#[derive(Clone, Copy, PartialEq, Eq, Debug)]
pub enum Sort {
    Type,
    Value,
    Module,
}

// What a scope has an entry for.
#[derive(Clone, Copy, PartialEq, Eq, Debug)]
pub enum Binder {
    // a structure or a signature, whose components are entered after it
    Itself,
    // a component that it has declared
    Component(Sort),
    // a functor's parameter, a module
    Parameter,
    // the variable of a `fun`, a value
    Variable,
}

// The number by which a binder is kept in memory. Constant time.
impl From<Binder> for u32 {
    ghost use Rattle.std.specs.Prelude.{◌≡◌};
    ghost use Rattle.reader.specs.Rows.{binder_number};

    ghost from_gives = { λ b n. n ≡ binder_number b };

    fn from(binder: Binder) -> u32 {
        match binder {
            Binder::Itself => 0,
            Binder::Component(Sort::Type) => 1,
            Binder::Component(Sort::Value) => 2,
            Binder::Component(Sort::Module) => 3,
            Binder::Parameter => 4,
            Binder::Variable => 5,
        }
    }
}

// The binder of a number; each number from 5 on stands for a variable. Constant time.
// From and no TryFrom: only numbers that were written from a binder stand in the words.
impl From<u32> for Binder {
    ghost use Rattle.std.specs.Prelude.{◌≡◌};
    ghost use Rattle.reader.specs.Rows.{binder_at};

    ghost from_gives = { λ n b. b ≡ binder_at n };

    fn from(n: u32) -> Binder {
        match n {
            0 => Binder::Itself,
            1 => Binder::Component(Sort::Type),
            2 => Binder::Component(Sort::Value),
            3 => Binder::Component(Sort::Module),
            4 => Binder::Parameter,
            _ => Binder::Variable,
        }
    }
}

// What a symbol that follows gets from the symbol that it follows from: how many are open there, and what is declared.
#[derive(Clone, Copy, PartialEq, Eq, Debug)]
pub enum Inherit {
    // what holds at the token
    Here,
    // all that the symbol itself has, inside and for what follows
    Same,
    // what holds at the token, with one more open
    Inside,
    // what holds at the token, with `functor` or `fun` and its bracket open besides
    Bracket,
    // what holds at the token, with the new entry
    Entered,
    // the same with one more open
    Opened,
    // what holds at the token, and the new entry for what follows
    Declared,
    // a functor's body: one more open and the new entry inside, and for what follows what the symbol has
    Body,
}

// What the head of a path is: a lower name of a sort, or an upper name.
#[derive(Clone, Copy, PartialEq, Eq, Debug)]
pub enum PathHead {
    Lower(Sort),
    Upper,
}

impl PathHead {
    // The sort in which the head is sought. Constant time.
    pub fn sort(self) -> Sort
        ensures { result ≡ sought_sort self }
    {
        match self {
            PathHead::Lower(sort) => sort,
            PathHead::Upper => Sort::Module,
        }
    }
}
