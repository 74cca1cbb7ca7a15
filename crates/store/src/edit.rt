// The tests of records: which may stand in a directory, and which together.
ghost use Rattle.std.specs.Prelude.{◌≡◌};
ghost use Rattle.store.specs.Entries.{sound, clash, absent, lawful};

use super::directory::MOST_UNITS;
use super::entry::{Entry, LONGEST_TEXT};
use tokens::lexer::NAME_LIMIT;

// Whether a record's lengths are within their bounds. Constant time.
pub fn is_sound(e: Entry) -> bool
    ensures { result ≡ sound e }
{
    e.size > 0
        && usize::from(e.size) <= NAME_LIMIT
        && usize::from(e.place) + usize::from(e.size) <= usize::from(e.span)
        && usize::from(e.span) <= LONGEST_TEXT
}

// Whether two names may not stand in one directory. Constant time.
// A named function though it is `==`: the rule that the specs call `clash` stands in one place of the code too.
pub fn clashes(a: u128, b: u128) -> bool
    ensures { result ≡ clash a b }
{
    a == b
}

// Whether no record has a name that clashes with this one. A step for each record.
pub fn is_absent(name: u128, entries: &[Entry]) -> bool
    ensures { result ≡ absent name entries.now }
{
    !entries.iter().any(|e| clashes(e.name, name))
}

// Whether records can be those of a directory. At most 16 steps for each of at most 16 records.
// A `for`: of an `all` with this closure over the enumerated records the check does not find what it answers.
pub fn is_lawful(entries: &[Entry]) -> bool
    ensures { result ≡ lawful entries.now }
{
    if entries.len() > MOST_UNITS {
        return false;
    }
    for (i, e) in entries.iter().enumerate() {
        if !is_sound(*e) {
            return false;
        }
        if !is_absent(e.name, &entries[i + 1..]) {
            return false;
        }
    }
    true
}
