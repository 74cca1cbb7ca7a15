// The directory of a store: at most 16 records, each one sound, no two of one name.
ghost use Rattle.std.specs.Prelude.{◌≡◌, ◌≤◌, true, [], length};
ghost use Rattle.store.specs.Entries.{lawful, entry_at, found};
ghost use Rattle.store.specs.Directories.{With, Without};

use super::edit::is_sound;
use super::entry::{BLANK, Entry};
use std::marker::Model;

// The units that a directory has at most.
pub const MOST_UNITS: usize = 16;

// The records are the first `count` of the array; what stands behind them is blank, so that two directories are equal
// when their records are.
// A plain struct, changed by value; an ArrayVec is not Copy.
#[derive(Clone, Copy, PartialEq, Eq, Debug)]
pub struct Directory {
    pub(crate) count: usize,
    pub(crate) entries: [Entry; 16],
}

// A directory is the list of its records.
impl Model for Directory {
    ghost use Rattle.std.specs.Prelude.{List, ◌-◌, ◌++◌, length, take, replicate};
    ghost use Rattle.store.specs.declared.entry.Entry.{Entry};
    ghost use Rattle.store.specs.Entries.{blank};

    ghost Value = { List Entry };

    ghost use Rattle.store.specs.Directories.{IsDirectory};
    ghost use Rattle.store.specs.Restored.{restored_count, restored_entries};

    ghost view = { λ d. take d.count d.entries };

    ghost invariant = { IsDirectory };

    ghost inverse = { λ es. record { count = length es; entries = es ++ replicate (16 - length es) blank } };

    ghost inverse_ok = { λ d h i. record { count = restored_count d h i; entries = restored_entries d h i } };
}

impl Directory {
    // The directory without records. Constant time.
    pub fn empty() -> Directory
        ensures { result ≡ [] }
    {
        Directory {
            count: 0,
            entries: [BLANK; 16],
        }
    }

    // How many records there are: at most 16. Constant time.
    pub fn len(&self) -> usize
        ensures value { result ≡ length self.now }
        ensures few { result ≤ 16 }
    {
        self.count
    }

    // The records, which are lawful in every directory: at most 16, each one sound, no two of one name. Constant time.
    pub fn records(&self) -> &[Entry]
        ensures value { result.now ≡ self.now }
        ensures kept { lawful self.now ≡ true }
    {
        &self.entries[..self.count]
    }

    // The k-th record. Constant time.
    pub fn entry(&self, k: usize) -> Option<Entry>
        ensures { result ≡ entry_at k self.now }
    {
        self.records().get(k).copied()
    }

    // The place of the record of this name. At most 16 steps.
    pub fn find(&self, name: u128) -> Option<usize>
        ensures { result ≡ found name self.now }
    {
        self.records().iter().position(|e| e.name == name)
    }

    // The directory with this record in place of the one of its name, or behind the last, and its place there; None
    // where the record is not sound or 16 others are there. At most 16 steps.
    // None for both: what `put` enters is sound, so that its None is a full directory.
    pub fn with(self, e: Entry) -> Option<(Directory, usize)>
        ensures { With e self result }
    {
        if !is_sound(e) {
            return None;
        }
        let i = self.find(e.name).unwrap_or(self.count);
        if i >= MOST_UNITS {
            return None;
        }
        let mut entries = self.entries;
        entries[i] = e;
        Some((
            Directory {
                count: self.count.max(i + 1),
                entries,
            },
            i,
        ))
    }

    // The directory without the record of this name, and the place that it had; the last record takes that place.
    // None where no record has the name. At most 16 steps.
    pub fn without(self, name: u128) -> Option<(Directory, usize)>
        ensures { Without name self result }
    {
        let i = self.find(name)?;
        let mut entries = self.entries;
        entries[i] = entries[self.count - 1];
        entries[self.count - 1] = BLANK;
        Some((
            Directory {
                count: self.count - 1,
                entries,
            },
            i,
        ))
    }
}
