// The pair layer: pair; mkpair, first and second.
ghost use Rattle.std.specs.Prelude.{◌≡◌};
ghost use Rattle.cores.specs.Pairs.{pair_entries};
ghost use Rattle.std.proofs.Common.{rules};

use crate::interface::{Found, Kind};
use crate::layers::{Layer, Layered};
use crate::lines::Item::{Arg, End, Label, Rho, Tau};
use crate::lines::Line;
use crate::table::{Entry, find_word, label_word, operator_line};
use types::words::LABEL2;

#[derive(Clone, Copy, PartialEq, Eq, Debug, Default)]
pub struct Pairs;

// Pairs over a core.
pub type WithPairs<C> = Layered<Pairs, C>;

// The words of the own labels, by their numbers.
// Said for each language: the same word has other numbers in another one.
const PAIR: u32 = LABEL2;

// A table behind a reference: an array of them would be built anew in each call.
#[derive(Clone, Copy)]
struct Table<'a> {
    words: &'a [Entry<'a>],
}

// The own words; a word's number is its place.
const OWN: Table<'static> = Table {
    words: &[
        Entry {
            name: b"pair",
            kind: Kind::Label(2),
            line: None,
        },
        Entry {
            name: b"mkpair",
            kind: Kind::Operator(2),
            line: Some(Line {
                arguments: &[Arg(1), Tau, Arg(2), Rho, End(3)],
                result: &[Label(PAIR), Tau, Rho],
            }),
        },
        Entry {
            name: b"first",
            kind: Kind::Operator(1),
            line: Some(Line {
                arguments: &[Arg(1), Label(PAIR), Tau, Rho, End(2)],
                result: &[Tau],
            }),
        },
        Entry {
            name: b"second",
            kind: Kind::Operator(1),
            line: Some(Line {
                arguments: &[Arg(1), Label(PAIR), Tau, Rho, End(2)],
                result: &[Rho],
            }),
        },
    ],
};

impl Layer for Pairs {
    ghost entries = { pair_entries };

    ghost proper = { Prim.search rules };

    ghost closed = { Prim.search rules };

    ghost inside = { Prim.search rules };

    // The same calls in each language: an impl for all languages would overlap with that of Layered.
    fn own_count(&self) -> u32 {
        OWN.words.len() as u32
    }

    fn own_word(&self, name: &[u8]) -> Option<Found> {
        find_word(OWN.words, name)
    }

    fn own_label(&self, label: u32) -> Option<&[u8]> {
        label_word(OWN.words, label)
    }

    fn own_line(&self, operator: u32) -> Option<Line<'_>> {
        operator_line(OWN.words, operator)
    }
}
