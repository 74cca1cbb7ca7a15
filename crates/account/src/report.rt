// The account of a unit's text, printed line by line.
// No contract speaks of what is printed: the programs' stored outputs hold it.

use super::cursor::{Cursor, Position};
use super::wording::{Kind, shown_byte};
use std::{fmt, io};
use tokens::count::{Counts, count_tokens};
pub use tokens::lexer::TEXT_LIMIT;
use tokens::lexer::{LexFault, Placed, Tokens};

// Bytes of a text, each shown in one column.
#[derive(Clone, Copy, PartialEq, Eq, Debug)]
pub struct Shown<'a>(pub &'a [u8]);

impl fmt::Display for Shown<'_> {
    fn fmt<W: fmt::Write>(&self, f: &mut fmt::Formatter<W>) -> fmt::Result {
        for b in self.0 {
            f.write_char(char::from(shown_byte(*b)))?;
        }
        Ok(())
    }
}

// A line and a column as editors count them, from 1.
#[derive(Clone, Copy, PartialEq, Eq, Debug)]
pub struct FromOne(pub Position);

impl fmt::Display for FromOne {
    fn fmt<W: fmt::Write>(&self, f: &mut fmt::Formatter<W>) -> fmt::Result {
        let line = self.0.line.saturating_add(1);
        let column = self.0.column.saturating_add(1);
        write!(f, "{line}:{column}")
    }
}

// One line for a token: line and column from 1, its kind, and its bytes.
// The handle and the text stay two parameters: a handle is passed down, and the two together are no thing with a name.
fn print_token(rt: &impl Print, at: Cursor<'_>, found: Placed<'_>, text: &[u8]) -> io::Result<()> {
    let here = FromOne(at.position());
    let kind = Kind(found.token);
    let spelling = Shown(text.get(found.place..found.end).unwrap_or(b""));
    println!(rt; "  {here}  {kind}  {spelling}")
}

fn print_counts(rt: &impl Print, counts: Counts) -> io::Result<()> {
    let Counts {
        marks,
        keywords,
        lowers,
        uppers,
        integers,
    } = counts;
    println!(rt;
        "  {marks} marks, {keywords} keywords, {lowers} lower names, {uppers} upper names, {integers} integers"
    )
}

// A fault as compilers show it: file, line and column with a sentence, the line, and a caret under the place.
fn print_fault(rt: &impl Print, file: &str, at: Cursor<'_>, fault: LexFault) -> io::Result<()> {
    let position = at.position();
    let here = FromOne(position);
    let shown = Shown(at.line_text());
    let column = position.column;
    println!(rt; "{file}:{here}: {fault}")?;
    println!(rt; "  | {shown}")?;
    println!(rt; "  | {:column$}^", "")
}

// A line for each token, in the order of the text. One pass over it.
fn print_tokens(rt: &impl Print, text: &[u8]) -> io::Result<()> {
    let mut at = Cursor::new(text);
    for found in Tokens::new(text).map_while(Result::ok) {
        at = at.forward(found.place);
        print_token(rt, at, found, text)?;
    }
    Ok(())
}

// The account of one text: its length, its tokens and their counts, or the first fault. Linear in the text.
pub fn print_account(rt: &impl Print, file: &str, text: &[u8]) -> io::Result<()> {
    let length = text.len();
    if length > TEXT_LIMIT {
        return println!(rt; "{file}: {length} bytes, and a unit has at most {TEXT_LIMIT}");
    }
    match count_tokens(text) {
        Ok(counts) => {
            println!(rt; "{file}: {length} bytes")?;
            print_tokens(rt, text)?;
            print_counts(rt, counts)
        }
        Err(fault) => print_fault(rt, file, Cursor::new(text).forward(fault.place), fault),
    }
}
