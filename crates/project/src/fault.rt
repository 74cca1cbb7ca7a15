// Why a call refuses: the question that got a no, and what is told beside its number.
ghost use Rattle.std.specs.Prelude.{◌≡◌};
ghost use Rattle.project.specs.Faults.{cause_number, question_number, question_place, question_component, reading_fault, without};

use reader::fault::ReadFault;

// Why a signature does not match another.
#[derive(Clone, Copy, PartialEq, Eq, Debug)]
pub enum MatchCause {
    // a component is missing, or there only in another sort
    Missing = 1,
    // a value has another type
    Value = 2,
    // a defined type is another one
    Definition = 3,
    // one is a functor, the other is none
    Form = 4,
}

// A method, as of the other faults: `u8::from` would not show which number it is.
impl MatchCause {
    // The number of the cause. Constant time.
    pub fn number(self) -> u8
        ensures { result ≡ cause_number self }
    {
        self as u8
    }
}

// The question that gets a no. A place is that of a byte in a text, from 0. `K` is the core's own kind of cause.
#[derive(Clone, Copy, PartialEq, Eq, Debug)]
pub enum Question<K> {
    // store, book or scratch have not their lengths
    Lengths,
    // the text is too long
    TextLength,
    // no text of the grammar goes on with the token at this place
    Syntax(usize),
    // too much is open at this token
    OpenCount(usize),
    // this name is declared a second time
    DeclaredTwice(usize),
    // this lower head is not declared
    Undeclared(usize),
    // 16 other units are stored
    Full,
    // no unit of that name is stored
    NotStored,
    // the head at this place names a unit that is not there
    UnitMissing(usize),
    // the unit reaches itself by naming
    Circle,
    // the path at this place does not lead to the sort wanted
    Path(usize),
    // the core does not take the types of the term at this place
    Types(usize, K),
    // what is applied at this place is no functor
    Applied(usize),
    // what stands at this place does not match: the component, by the number of its name, and why
    Match(usize, Option<u128>, MatchCause),
    // the type or signature at this place is too large
    Size(usize),
}

// A variant with fields has no number by a cast, so the numbers stand as the definition gives them, case by case; so do the places.
impl<K: Copy> Question<K> {
    // The number of the question. Constant time.
    pub fn number(self) -> u8
        ensures { result ≡ question_number self }
    {
        match self {
            Question::Lengths => 1,
            Question::TextLength => 2,
            Question::Syntax(_) => 3,
            Question::OpenCount(_) => 4,
            Question::DeclaredTwice(_) => 5,
            Question::Undeclared(_) => 6,
            Question::Full => 7,
            Question::NotStored => 8,
            Question::UnitMissing(_) => 10,
            Question::Circle => 11,
            Question::Path(_) => 12,
            Question::Types(_, _) => 13,
            Question::Applied(_) => 14,
            Question::Match(_, _, _) => 15,
            Question::Size(_) => 16,
        }
    }

    // The place in the text, where the question is about one. Constant time.
    pub fn place(self) -> Option<usize>
        ensures { result ≡ question_place self }
    {
        match self {
            Question::Lengths
            | Question::TextLength
            | Question::Full
            | Question::NotStored
            | Question::Circle => None,
            Question::Syntax(p)
            | Question::OpenCount(p)
            | Question::DeclaredTwice(p)
            | Question::Undeclared(p)
            | Question::UnitMissing(p)
            | Question::Path(p)
            | Question::Types(p, _)
            | Question::Applied(p)
            | Question::Match(p, _, _)
            | Question::Size(p) => Some(p),
        }
    }

    // The component of a mismatch, by the number of its name. Constant time.
    pub fn component(self) -> Option<u128>
        ensures { result ≡ question_component self }
    {
        match self {
            Question::Match(_, component, _) => component,
            _ => None,
        }
    }
}

// A refusal: the question, and the unit that it is about, by the number of its name, where there is one.
#[derive(Clone, Copy, PartialEq, Eq, Debug)]
pub struct Fault<K> {
    pub unit: Option<u128>,
    pub question: Question<K>,
}

// A refusal that is about no unit.
impl<K> From<Question<K>> for Fault<K> {
    ghost from_gives = { λ q r. r ≡ without q };

    fn from(question: Question<K>) -> Fault<K> {
        Fault {
            unit: None,
            question,
        }
    }
}

// What reading refuses, put refuses.
impl<K> From<ReadFault> for Fault<K> {
    ghost from_gives = { λ e r. r ≡ reading_fault e };

    fn from(e: ReadFault) -> Fault<K> {
        let question = match e {
            ReadFault::Scratch => Question::Lengths,
            ReadFault::TooLong => Question::TextLength,
            ReadFault::Syntax(p) => Question::Syntax(p),
            ReadFault::TooDeep(p) => Question::OpenCount(p),
            ReadFault::Redeclared(p) => Question::DeclaredTwice(p),
            ReadFault::Undeclared(p) => Question::Undeclared(p),
        };
        question.into()
    }
}
