// The record of one unit in a directory.
use tokens::lexer::TEXT_LIMIT;

// The bytes that a text has at most.
pub const LONGEST_TEXT: usize = TEXT_LIMIT;

// A unit's record: plain numbers only.
#[derive(Clone, Copy, PartialEq, Eq, Debug)]
pub struct Entry {
    // the number of the name
    pub name: u128,
    // how many bytes the name has
    pub size: u8,
    // where in the text the name stands
    pub place: u16,
    // how many bytes the text has
    pub span: u16,
    // the rank
    pub rank: u8,
}

// The record of zeros, in places that hold no unit. A constant and no Default: it fills arrays.
pub const BLANK: Entry = Entry {
    name: 0,
    size: 0,
    place: 0,
    span: 0,
    rank: 0,
};
