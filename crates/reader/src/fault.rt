// Why a text is refused, and where.
ghost use Rattle.std.specs.Prelude.{◌≡◌};
ghost use Rattle.reader.specs.Faults.{fault_number, fault_place};
ghost use Rattle.reader.specs.declared.fault.ReadFault.TheVariants.{Syntax};

use tokens::lexer::LexFault;

// The question that a text, or the memory lent for reading it, answers with no. A place counts bytes from 0.
#[derive(Clone, Copy, PartialEq, Eq, Debug)]
pub enum ReadFault {
    // the scratch has not the length asked for
    Scratch,
    // the text is too long
    TooLong,
    // no text goes on with the token at this place, or no token stands there
    Syntax(usize),
    // too much is open at this token
    TooDeep(usize),
    // this name was declared before, in its sort and its structure or signature
    Redeclared(usize),
    // this head is not declared in its sort
    Undeclared(usize),
}

impl ReadFault {
    // The number of the question. Constant time.
    // A method: `u8::from` would not show which number it is, and callers read it beside the place.
    pub fn number(self) -> u8
        ensures { result ≡ fault_number self }
    {
        match self {
            ReadFault::Scratch => 1,
            ReadFault::TooLong => 2,
            ReadFault::Syntax(_) => 3,
            ReadFault::TooDeep(_) => 4,
            ReadFault::Redeclared(_) => 5,
            ReadFault::Undeclared(_) => 6,
        }
    }

    // The place in the text, where the question is about one. Constant time.
    pub fn place(self) -> Option<usize>
        ensures { result ≡ fault_place self }
    {
        match self {
            ReadFault::Scratch | ReadFault::TooLong => None,
            ReadFault::Syntax(p)
            | ReadFault::TooDeep(p)
            | ReadFault::Redeclared(p)
            | ReadFault::Undeclared(p) => Some(p),
        }
    }
}

// A place where no token stands is a syntax fault.
impl From<LexFault> for ReadFault {
    ghost from_gives = { λ e r. r ≡ Syntax e.place };

    fn from(e: LexFault) -> ReadFault {
        ReadFault::Syntax(e.place)
    }
}
