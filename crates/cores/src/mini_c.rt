// Mini-C: int, void, ptr and func; plus, addr, deref, store and call.
ghost use Rattle.std.specs.Prelude.{◌≡◌, [], ◌++◌, if◌then◌else◌, Some, codes, decimal};
ghost use Rattle.std.specs.Option.{option_map};
ghost use Rattle.cores.specs.Steps.{row_items, itemized};
ghost use Rattle.cores.specs.MiniC.{c_line, c_words, c_rule, pointer_at, c_refusal};
ghost use Rattle.cores.specs.declared.interface.Operation.TheVariants.{Operator};
ghost use Rattle.cores.specs.Shipped.{c_stable};
ghost use Rattle.std.proofs.Common.{rules};

use crate::interface::{Core, Found, Kind, Operation, Refusal};
use crate::lines::Item::{Arg, End, Label, Rho, Tau};
use crate::lines::{Line, Position, answer_line};
use crate::table::{Entry, Language, find_word, label_word};
use std::fmt;
use types::words::{LABEL0, LABEL1, LABEL2};

#[derive(Clone, Copy, PartialEq, Eq, Debug, Default)]
pub struct MiniC;

// The position of the first wrong argument, and whether the operator's line writes `ptr` there.
#[derive(Clone, Copy, PartialEq, Eq, Debug)]
pub struct CCause {
    pub position: u32,
    pub pointer: bool,
}

// A cause is shown by its position, with `ptr` behind it where the mark is set.
impl fmt::Display for CCause {
    ghost output = { λ c. Some (decimal c.position ++ (if c.pointer then codes "ptr" else [])) };

    fn fmt<W: fmt::Write>(&self, f: &mut fmt::Formatter<W>) -> fmt::Result {
        let position = self.position;
        let mark = if self.pointer { "ptr" } else { "" };
        write!(f, "{position}{mark}")
    }
}

// The words of the own labels, by their numbers.
// Said for each language: the same word has other numbers in another one.
const INT: u32 = LABEL0;

const VOID: u32 = LABEL0 + 1;

const PTR: u32 = LABEL1 + 2;

const FUNC: u32 = LABEL2 + 3;

// The numbers of the operators whose lines write `ptr`.
// By number: to look for `ptr` in the line at each refusal is no plainer.
const DEREF: u32 = 6;

const STORE: u32 = 7;

// The lines and the words; a word's number is its place.
const LANGUAGE: Language<'static> = Language {
    literal: Line {
        arguments: &[End(1)],
        result: &[Label(INT)],
    },
    function: Line {
        arguments: &[Arg(1), Tau, Arg(2), Rho, End(3)],
        result: &[Label(FUNC), Tau, Rho],
    },
    words: &[
        Entry {
            name: b"int",
            kind: Kind::Label(0),
            line: None,
        },
        Entry {
            name: b"void",
            kind: Kind::Label(0),
            line: None,
        },
        Entry {
            name: b"ptr",
            kind: Kind::Label(1),
            line: None,
        },
        Entry {
            name: b"func",
            kind: Kind::Label(2),
            line: None,
        },
        Entry {
            name: b"plus",
            kind: Kind::Operator(2),
            line: Some(Line {
                arguments: &[Arg(1), Label(INT), Arg(2), Label(INT), End(3)],
                result: &[Label(INT)],
            }),
        },
        Entry {
            name: b"addr",
            kind: Kind::Operator(1),
            line: Some(Line {
                arguments: &[Arg(1), Tau, End(2)],
                result: &[Label(PTR), Tau],
            }),
        },
        Entry {
            name: b"deref",
            kind: Kind::Operator(1),
            line: Some(Line {
                arguments: &[Arg(1), Label(PTR), Tau, End(2)],
                result: &[Tau],
            }),
        },
        Entry {
            name: b"store",
            kind: Kind::Operator(2),
            line: Some(Line {
                arguments: &[Arg(1), Label(PTR), Tau, Arg(2), Tau, End(3)],
                result: &[Label(VOID)],
            }),
        },
        Entry {
            name: b"call",
            kind: Kind::Operator(2),
            line: Some(Line {
                arguments: &[Arg(1), Label(FUNC), Tau, Rho, Arg(2), Tau, End(3)],
                result: &[Rho],
            }),
        },
    ],
};

// Whether the operation's line writes `ptr` at this argument.
fn writes_ptr(operation: Operation, position: u32) -> bool
    ensures { result ≡ pointer_at (c_line operation) position }
{
    position == 1 && matches!(operation, Operation::Operator(DEREF | STORE))
}

// A refusal with the pointer mark.
fn marked(operation: Operation, refusal: Refusal<Position>) -> Refusal<CCause>
    ensures { result ≡ c_refusal operation refusal }
{
    refusal.map_cause(|Position { number }| CCause {
        position: number,
        pointer: writes_ptr(operation, number),
    })
}

impl Core for MiniC {
    type Cause = CCause;

    ghost words = { c_words };

    ghost rule = { c_rule };

    ghost proper = { Prim.search rules };

    ghost few = { Prim.search rules };

    ghost stable = { c_stable };

    // The same calls in each language: an impl for all languages would overlap with that of Layered.
    fn count(&self) -> u32 {
        LANGUAGE.words.len() as u32
    }

    fn find(&self, name: &[u8]) -> Option<Found> {
        find_word(LANGUAGE.words, name)
    }

    fn label_name(&self, label: u32) -> Option<&[u8]> {
        label_word(LANGUAGE.words, label)
    }

    fn answer(
        &self,
        operation: Operation,
        args: &[u32],
        out: &mut [u32],
    ) -> Result<usize, Refusal<CCause>> {
        answer_line(LANGUAGE.line(operation), 0, args, out).map_err(|refusal| marked(
            operation, refusal,
        ))
    }
}
