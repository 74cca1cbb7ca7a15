// Lines and columns of places in a text.
ghost use Rattle.std.specs.Prelude.{◌≡◌, ◌≤◌, min, max, length};
ghost use Rattle.std.specs.List.{prefix_len};
ghost use Rattle.account.specs.Lines.{stays_on_line, line_of, column_of, line_around};

// A line and a column, both from 0.
#[derive(Clone, Copy, PartialEq, Eq, Debug, Default)]
pub struct Position {
    pub line: usize,
    pub column: usize,
}

// A place in a text, with the line feeds before it and the bytes since the last of them.
#[derive(Clone, Copy, PartialEq, Eq, Debug)]
pub struct Cursor<'a> {
    text: &'a [u8],
    place: usize,
    position: Position,
    ghost within: { place ≤ length text.now },
    ghost counted: { position.line ≡ line_of text.now place },
    ghost reached: { position.column ≡ column_of text.now place },
}

impl<'a> Cursor<'a> {
    // The start of a text. Constant time.
    pub fn new(text: &'a [u8]) -> Cursor<'a>
        ensures { (result.text ≡ text.entry) × (result.place ≡ 0) }
    {
        Cursor {
            text,
            place: 0,
            position: Position::default(),
        }
    }

    // The line and the column of the place. Constant time.
    pub fn position(self) -> Position
        ensures { (result.line ≡ line_of self.entry.text.now self.entry.place) × (result.column ≡ column_of self.entry.text.now self.entry.place) }
    {
        self.position
    }

    // The same text at a later place; at its end where the place is behind it, and where it is where the place is before it.
    // Linear in the bytes between.
    pub fn forward(self, place: usize) -> Cursor<'a>
        ensures { (result.text ≡ self.entry.text) × (result.place ≡ max self.entry.place (min place (length self.entry.text.now))) }
    {
        let passed = self
            .text
            .get(self.place..place.min(self.text.len()))
            .unwrap_or(&[]);
        let mut position = self.position;
        for b in passed {
            if *b == b'\n' {
                position.line += 1;
                position.column = 0;
            } else {
                position.column += 1;
            }
        }
        Cursor {
            text: self.text,
            place: self.place + passed.len(),
            position,
        }
    }

    // The line that the place stands in, without its line feed. Linear in what is left of the line.
    pub fn line_text(self) -> &'a [u8]
        ensures { result.now ≡ line_around self.entry.text.now self.entry.place }
    {
        let start = self.place - self.position.column;
        let end = self.place + before_feed(&self.text[self.place..]);
        &self.text[start..end]
    }
}

// How many bytes stand before the first line feed. Linear in the answer.
fn before_feed(bytes: &[u8]) -> usize
    ensures value { result ≡ prefix_len stays_on_line bytes.now }
    ensures bound { result ≤ length bytes.now }
{
    bytes.iter().take_while(|b| **b != b'\n').count()
}
