// Tables of words: a word's number is its place in the table.
ghost use Rattle.std.specs.Prelude.{◌≡◌, ◌^◌, ◌≤◌, map, length};
ghost use Rattle.std.specs.Option.{option_map};
ghost use Rattle.cores.specs.Meaning.{lookup, label_name};
ghost use Rattle.cores.specs.Steps.{row_items};
ghost use Rattle.cores.specs.Tables.{tabled, row, row_at, rows, operation_row};

use crate::interface::{Found, Kind, Operation};
use crate::lines::Line;

// A word with its name, and with its line if it is an operator.
#[derive(Clone, Copy, PartialEq, Eq, Debug)]
pub struct Entry<'a> {
    pub name: &'a [u8],
    pub kind: Kind,
    pub line: Option<Line<'a>>,
}

// The first word of this name, by position, since the place is the number that is answered. Linear in the table.
pub(crate) fn find_word(table: &[Entry<'_>], name: &[u8]) -> Option<Found>
    requires { length table.now ≤ 2 ^ 32 }
    ensures { result ≡ lookup (map tabled table.now) name.now }
{
    let number = table.iter().position(|entry| name == entry.name)?;
    Some(Found {
        number: number as u32,
        kind: table[number].kind,
    })
}

// The name of the label of this number. Constant time.
pub(crate) fn label_word<'a>(table: &[Entry<'a>], label: u32) -> Option<&'a [u8]>
    ensures { option_map (λ x. x.now) result ≡ label_name (map tabled table.now) label }
{
    let word = table.get(label as usize)?;
    match word.kind {
        Kind::Label(_) => Some(word.name),
        Kind::Operator(_) => None,
    }
}

// The line of the operator of this number. Constant time.
pub(crate) fn operator_line<'a>(table: &[Entry<'a>], number: u32) -> Option<Line<'a>>
    ensures { option_map (λ l. row_items l) result ≡ row_at (map row table.now) number }
{
    table.get(number as usize)?.line
}

// A language: the lines of the integer literal and of the function, and its words.
#[derive(Clone, Copy, PartialEq, Eq, Debug)]
pub struct Language<'a> {
    pub literal: Line<'a>,
    pub function: Line<'a>,
    pub words: &'a [Entry<'a>],
}

impl<'a> Language<'a> {
    // The line of an operation. Constant time.
    pub(crate) fn line(&self, operation: Operation) -> Option<Line<'a>>
        ensures { option_map (λ l. row_items l) result ≡ operation_row (rows self.now) operation }
    {
        match operation {
            Operation::Literal => Some(self.literal),
            Operation::Function => Some(self.function),
            Operation::Operator(number) => operator_line(self.words, number),
        }
    }
}
