// Mini-ML: int, bool and arrow; true, add, choose and apply.
ghost use Rattle.cores.specs.MiniMl.{ml_words, ml_rule};
ghost use Rattle.cores.specs.Shipped.{ml_stable};
ghost use Rattle.std.proofs.Common.{rules};

use crate::interface::{Core, Found, Kind, Operation, Refusal};
use crate::lines::Item::{Arg, End, Label, Rho, Tau};
use crate::lines::{Line, Position, answer_line};
use crate::table::{Entry, Language, find_word, label_word};
use types::words::{LABEL0, LABEL2};

#[derive(Clone, Copy, PartialEq, Eq, Debug, Default)]
pub struct MiniMl;

// The words of the own labels, by their numbers.
// Said for each language: the same word has other numbers in another one.
const INT: u32 = LABEL0;

const BOOL: u32 = LABEL0 + 1;

const ARROW: u32 = LABEL2 + 2;

// The lines and the words; a word's number is its place.
const LANGUAGE: Language<'static> = Language {
    literal: Line {
        arguments: &[End(1)],
        result: &[Label(INT)],
    },
    function: Line {
        arguments: &[Arg(1), Tau, Arg(2), Rho, End(3)],
        result: &[Label(ARROW), Tau, Rho],
    },
    words: &[
        Entry {
            name: b"int",
            kind: Kind::Label(0),
            line: None,
        },
        Entry {
            name: b"bool",
            kind: Kind::Label(0),
            line: None,
        },
        Entry {
            name: b"arrow",
            kind: Kind::Label(2),
            line: None,
        },
        Entry {
            name: b"true",
            kind: Kind::Operator(0),
            line: Some(Line {
                arguments: &[End(1)],
                result: &[Label(BOOL)],
            }),
        },
        Entry {
            name: b"add",
            kind: Kind::Operator(2),
            line: Some(Line {
                arguments: &[Arg(1), Label(INT), Arg(2), Label(INT), End(3)],
                result: &[Label(INT)],
            }),
        },
        Entry {
            name: b"choose",
            kind: Kind::Operator(3),
            line: Some(Line {
                arguments: &[Arg(1), Label(BOOL), Arg(2), Tau, Arg(3), Tau, End(4)],
                result: &[Tau],
            }),
        },
        Entry {
            name: b"apply",
            kind: Kind::Operator(2),
            line: Some(Line {
                arguments: &[Arg(1), Label(ARROW), Tau, Rho, Arg(2), Tau, End(3)],
                result: &[Rho],
            }),
        },
    ],
};

impl Core for MiniMl {
    type Cause = Position;

    ghost words = { ml_words };

    ghost rule = { ml_rule };

    ghost proper = { Prim.search rules };

    ghost few = { Prim.search rules };

    ghost stable = { ml_stable };

    // The same calls in each language: an impl for all languages would overlap with that of Layered.
    fn count(&self) -> u32 {
        LANGUAGE.words.len() as u32
    }

    fn find(&self, name: &[u8]) -> Option<Found> {
        find_word(LANGUAGE.words, name)
    }

    fn label_name(&self, label: u32) -> Option<&[u8]> {
        label_word(LANGUAGE.words, label)
    }

    fn answer(
        &self,
        operation: Operation,
        args: &[u32],
        out: &mut [u32],
    ) -> Result<usize, Refusal<Position>> {
        answer_line(LANGUAGE.line(operation), 0, args, out)
    }
}
