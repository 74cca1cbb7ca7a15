// Rules by their lines: a line is compared with the words of arguments, and what it gives is written.
ghost use Rattle.std.specs.Prelude.{◌≡◌, ◌+◌, ◌<◌, ◌++◌, length, Some, OnOk, OnErr, IfOk, decimal};
ghost use Rattle.std.specs.Option.{option_map};
ghost use Rattle.cores.specs.Steps.{row_items, placed, reached, start, compared, bound, behind, step, run, item_words, result_words, line_reply, line_leaves};
ghost use Rattle.cores.specs.declared.interface.Refusal.TheVariants.{Cause};

use crate::interface::Refusal;
use arrayvec::{ArrayVec, CapacityError};
use std::fmt;
use types::words::{are_types, copy_run, split_type};

// The position of an argument, from 1.
#[derive(Clone, Copy, PartialEq, Eq, Debug)]
pub struct Position {
    pub number: u32,
}

// A position is shown by its number.
impl fmt::Display for Position {
    ghost output = { λ p. Some (decimal p.number) };

    fn fmt<W: fmt::Write>(&self, f: &mut fmt::Formatter<W>) -> fmt::Result {
        let number = self.number;
        write!(f, "{number}")
    }
}

// A cause is a refusal.
impl<K> From<K> for Refusal<K> {
    ghost from_gives = { λ k r. r ≡ Cause k };

    fn from(cause: K) -> Refusal<K> {
        Refusal::Cause(cause)
    }
}

// An item of a line: data and no closure, since laws speak of lines. Patterns are spelled like types: an own label by its word, counted from the first own word, before its parts.
#[derive(Clone, Copy, PartialEq, Eq, Debug)]
pub enum Item {
    // the argument of this position begins
    Arg(u32),
    // no argument of this position follows
    End(u32),
    Label(u32),
    // any type, the same one wherever it stands in the line
    Tau,
    Rho,
}

// A line of a rule: what the arguments have to be, and what is given.
#[derive(Clone, Copy, PartialEq, Eq, Debug)]
pub struct Line<'a> {
    pub arguments: &'a [Item],
    pub result: &'a [Item],
}

// The most words that a result may have.
const LIMIT: usize = 32;

// How far arguments were compared with a line of a layer with `base` words below: the words left,
// what the variables stand for, and the position reached.
#[derive(Clone, Copy, PartialEq, Eq, Debug)]
struct Progress<'a> {
    base: u32,
    rest: &'a [u32],
    tau: Option<&'a [u32]>,
    rho: Option<&'a [u32]>,
    position: u32,
}

// An own label's word in a stack with `base` words before the first own one.
fn placed_word(base: u32, word: u32) -> u32
    ensures { result ≡ placed base word }
{
    base.wrapping_add(word)
}

// What a variable stands for once it has met the next type, and the words behind that type: the type's words,
// unless the variable stood for others.
fn bind<'a>(known: Option<&'a [u32]>, rest: &'a [u32]) -> Option<(&'a [u32], &'a [u32])>
    ensures { option_map (λ x. (x.0.now, x.1.now)) result ≡ bound (option_map (λ x. x.now) known.entry) rest.now }
{
    let (met, behind) = split_type(rest)?;
    match known {
        Some(words) if words != met => None,
        _ => Some((met, behind)),
    }
}

impl<'a> Progress<'a> {
    // One item of a line.
    fn advance(self, item: Item) -> Result<Progress<'a>, Position>
        ensures compares { compared result ≡ step self.entry.base item (reached self.entry) }
        ensures base { IfOk result (λ p. p.base ≡ self.entry.base) }
    {
        let here = Position {
            number: self.position,
        };
        match item {
            Item::Arg(number) if self.rest.is_empty() => Err(Position { number }),
            Item::Arg(position) => Ok(Progress { position, ..self }),
            Item::End(_) if self.rest.is_empty() => Ok(self),
            Item::End(number) => Err(Position { number }),
            Item::Label(word) => {
                let rest = self
                    .rest
                    .strip_prefix(&[placed_word(self.base, word)])
                    .ok_or(here)?;
                Ok(Progress { rest, ..self })
            }
            // Two arms: they set different fields.
            Item::Tau => {
                let (words, rest) = bind(self.tau, self.rest).ok_or(here)?;
                Ok(Progress {
                    rest,
                    tau: Some(words),
                    ..self
                })
            }
            Item::Rho => {
                let (words, rest) = bind(self.rho, self.rest).ok_or(here)?;
                Ok(Progress {
                    rest,
                    rho: Some(words),
                    ..self
                })
            }
        }
    }

    // Puts the words of an item of a result behind others, unless they are then over 32; a variable that met nothing is 0.
    fn push_words(self, item: Item, words: &mut ArrayVec<u32, LIMIT>) -> Result<(), CapacityError>
        ensures over { OnErr result (32 < length words.old.items + length (item_words self.entry.base (reached self.entry) item)) }
        ensures ok { OnOk result (words.new.items ≡ words.old.items ++ item_words self.entry.base (reached self.entry) item) }
    {
        match item {
            Item::Arg(_) | Item::End(_) => Ok(()),
            Item::Label(word) => words.try_extend_from_slice(&[placed_word(self.base, word)]),
            Item::Tau => words.try_extend_from_slice(self.tau.unwrap_or(&[0])),
            Item::Rho => words.try_extend_from_slice(self.rho.unwrap_or(&[0])),
        }
    }

    // The words of a result, unless they are over 32.
    fn result_words(self, items: &[Item]) -> Result<ArrayVec<u32, LIMIT>, CapacityError>
        ensures over { OnErr result (32 < length (result_words self.entry.base (reached self.entry) items.now)) }
        ensures ok { IfOk result (λ v. v.items ≡ result_words self.entry.base (reached self.entry) items.now) }
    {
        let mut words = ArrayVec::new();
        for item in items {
            self.push_words(*item, &mut words)?;
        }
        Ok(words)
    }
}

// The arguments compared with the items of a line: what the variables stand for, or the position of the first wrong argument.
fn compare<'a>(items: &[Item], base: u32, args: &'a [u32]) -> Result<Progress<'a>, Position>
    ensures compares { compared result ≡ run base items.now (start args.now) }
    ensures base { IfOk result (λ p. p.base ≡ base) }
{
    let mut at = Progress {
        base,
        rest: args,
        tau: None,
        rho: None,
        position: 1,
    };
    for item in items {
        at = at.advance(*item)?;
    }
    Ok(at)
}

// What a line of a layer with `base` words below gives for argument types, written to the front of `out`, with its length.
// An operation without a line is refused at its first argument; a refusal leaves `out` as it was. Linear in the words read and written.
pub fn answer_line(
    line: Option<Line<'_>>,
    base: u32,
    args: &[u32],
    out: &mut [u32],
) -> Result<usize, Refusal<Position>>
    ensures result { result ≡ line_reply base (option_map (λ l. row_items l) line.entry) args.now (length out.old) }
    ensures left { out.new ≡ line_leaves base (option_map (λ l. row_items l) line.entry) args.now out.old }
{
    if !are_types(args) {
        return Err(Refusal::Arguments);
    }
    let line = line.ok_or(Position { number: 1 })?;
    let at = compare(line.arguments, base, args)?;
    // not map_err(..)?: what result_words promises is not found behind it
    let Ok(words) = at.result_words(line.result) else {
        return Err(Refusal::Size);
    };
    copy_run(&words, out, 0).ok_or(Refusal::Short)
}
