// Types in memory: a run of 32-bit words, one for each label and leaf, a label before its parts.
ghost use Rattle.std.specs.Prelude.{◌≡◌, ℕ, ◌+◌, ◌^◌, ◌<◌, length, take, drop, Decides};
ghost use Rattle.std.specs.Option.{option_map};
ghost use Rattle.std.specs.Result.{result_ok};
ghost use Rattle.types.specs.Encoding.{FirstType, AreTypes};
ghost use Rattle.types.specs.Words.{node, word_of, parts, types_with, span, first_type, whole, copied, copied_end};

// A word taken apart: a leaf by its number, or a label with 0, 1 or 2 parts by its number.
#[derive(Clone, Copy, PartialEq, Eq, Debug)]
pub enum Node {
    Leaf(u32),
    Label0(u32),
    Label1(u32),
    Label2(u32),
}

// A node without a word: its number has more than 30 bits.
#[derive(Clone, Copy, PartialEq, Eq, Debug)]
pub struct NumberTooLong;

// The first words of the labels with 0, 1 and 2 parts.
pub const LABEL0: u32 = 0x4000_0000;

pub const LABEL1: u32 = 0x8000_0000;

pub const LABEL2: u32 = 0xC000_0000;

// What a word says: its top two bits tell leaf and labels apart, the others are the number. Constant time.
impl From<u32> for Node {
    ghost from_gives = { λ w r. r ≡ node w };

    fn from(word: u32) -> Node {
        if word < LABEL0 {
            Node::Leaf(word)
        } else if word < LABEL1 {
            Node::Label0(word - LABEL0)
        } else if word < LABEL2 {
            Node::Label1(word - LABEL1)
        } else {
            Node::Label2(word - LABEL2)
        }
    }
}

// The word of a leaf or label, if its number has at most 30 bits. Constant time.
impl TryFrom<Node> for u32 {
    type Error = NumberTooLong;

    ghost try_from_gives = { λ d r. result_ok r ≡ word_of d };

    fn try_from(node: Node) -> Result<u32, NumberTooLong> {
        let (first, number) = match node {
            Node::Leaf(number) => (0, number),
            Node::Label0(number) => (LABEL0, number),
            Node::Label1(number) => (LABEL1, number),
            Node::Label2(number) => (LABEL2, number),
        };
        if number < LABEL0 {
            Ok(first + number)
        } else {
            Err(NumberTooLong)
        }
    }
}

impl Node {
    // How many parts stand behind the word.
    fn parts(self) -> usize
        ensures { result ≡ parts self }
    {
        match self {
            Node::Leaf(_) | Node::Label0(_) => 0,
            Node::Label1(_) => 1,
            Node::Label2(_) => 2,
        }
    }
}

// The words behind the first n; none where there are no more. Constant time.
pub fn after(words: &[u32], n: usize) -> &[u32]
    ensures { result.now ≡ drop n words.now }
{
    words.get(n..).unwrap_or(&[])
}

// The first n words, or all if there are fewer. Constant time.
pub fn front(words: &[u32], n: usize) -> &[u32]
    ensures { result.now ≡ take n words.now }
{
    words.get(..n).unwrap_or(words)
}

// Copies a run of words over others, from place `n` on, and tells where the copy ends; where there is no room nothing is changed.
// Linear in the run.
pub fn copy_run(words: &[u32], out: &mut [u32], n: usize) -> Option<usize>
    ensures end { result ≡ copied_end words.now n (length out.old) }
    ensures after { out.new ≡ copied words.now n out.old }
{
    // not `get_mut(n..end)`: the library promises nothing of the elements written through it
    let end = n.checked_add(words.len()).filter(|end| *end <= out.len())?;
    out[n..end].copy_from_slice(words);
    Some(end)
}

// How many words the first type takes, if one stands there whole. Linear in that length.
pub fn type_end(words: &[u32]) -> Option<usize>
    ensures end { result ≡ span words.now 1 }
    ensures means { FirstType words.now result }
{
    let mut wanted: usize = 1;
    for (i, word) in words.iter().enumerate() {
        if wanted == 0 {
            return Some(i);
        }
        wanted = wanted - 1 + Node::from(*word).parts();
    }
    (wanted == 0).then_some(words.len())
}

// The words of the first type and those behind it, if a type stands there whole. Linear in the first type.
pub fn split_type(words: &[u32]) -> Option<(&[u32], &[u32])>
    ensures { option_map (λ p. (p.0.now, p.1.now)) result ≡ first_type words.now }
{
    Some(words.split_at(type_end(words)?))
}

// How many types there are once a word stands in front of `count` types, if these are enough for its parts.
fn types_with(node: Node, count: usize) -> Option<usize>
    requires { count + 1 < 2 ^ 64 }
    ensures { result ≡ types_with node count }
{
    Some(count.checked_sub(node.parts())? + 1)
}

// Whether words are whole types and nothing else. Linear.
pub fn are_types(words: &[u32]) -> bool
    ensures tells { result ≡ whole words.now }
    ensures means { Decides result (AreTypes words.now) }
{
    // not `try_fold`: the library states no bound on the count that its closure takes
    let mut count: usize = 0;
    for word in words.iter().rev() {
        let Some(n) = types_with(Node::from(*word), count) else {
            return false;
        };
        count = n;
    }
    true
}
