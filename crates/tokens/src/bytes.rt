// What a single byte of a text can be.
ghost use Rattle.std.specs.Prelude.{◌≡◌, ◌≤◌, ◌<◌, length, MatchOption};
ghost use Rattle.std.specs.List.{prefix_len};
ghost use Rattle.tokens.specs.Bytes.{class, goes_on, SplitsRun};

// The kinds of bytes that the lexer tells apart.
#[derive(Clone, Copy, PartialEq, Eq, Debug)]
pub enum Class {
    Blank,
    Lower,
    Upper,
    Digit,
    Underscore,
    Other,
}

// The class of a byte. Constant time.
impl From<u8> for Class {
    ghost from_gives = { λ b r. r ≡ class b };

    fn from(b: u8) -> Class {
        match b {
            b' ' | b'\t' | b'\n' | b'\r' => Class::Blank,
            b'a'..=b'z' => Class::Lower,
            b'A'..=b'Z' => Class::Upper,
            b'0'..=b'9' => Class::Digit,
            b'_' => Class::Underscore,
            _ => Class::Other,
        }
    }
}

// The runs of bytes that go as far as they can.
// An enum and no closure: the three runs are all there are, and contracts name them.
#[derive(Clone, Copy, PartialEq, Eq, Debug)]
pub enum Run {
    Blanks,
    Name,
    Digits,
}

impl Run {
    // Whether a byte goes on with the run. Constant time.
    pub fn takes(self, b: u8) -> bool
        ensures { result ≡ goes_on self b }
    {
        match self {
            Run::Blanks => matches!(Class::from(b), Class::Blank),
            Run::Name => matches!(
                Class::from(b),
                Class::Lower | Class::Upper | Class::Digit | Class::Underscore
            ),
            Run::Digits => matches!(Class::from(b), Class::Digit),
        }
    }

    // How many bytes at the front belong to the run. Linear in the answer.
    pub fn length(self, bytes: &[u8]) -> usize
        ensures value { result ≡ prefix_len (goes_on self) bytes.now }
        ensures bound { result ≤ length bytes.now }
    {
        bytes.iter().take_while(|b| self.takes(**b)).count()
    }

    // The run at the front and what is left behind it, if it has at most so many bytes. Linear in the run.
    pub fn split(self, bytes: &[u8], limit: usize) -> Option<(&[u8], &[u8])>
        ensures { MatchOption result (limit < prefix_len (goes_on self) bytes.now) (SplitsRun (prefix_len (goes_on self) bytes.now) limit bytes.now) }
    {
        let n = self.length(bytes);
        (n <= limit).then(|| bytes.split_at(n))
    }
}
