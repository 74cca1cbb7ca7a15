// Questions to a core and its answers, as text.
ghost use Rattle.std.specs.Prelude.{◌≡◌};
ghost use Rattle.core_tables.specs.Questions.{operation_named};

use cores::interface::{Core, Found, Kind, Operation, Refusal};
use std::alloc::{AllocError, Global};
use std::fmt::Display;
use std::str::from_utf8;
use types::words::Node;

// The operation of this name.
pub fn operation_named<C: Core>(core: &C, name: &[u8]) -> Option<Operation>
    ensures { result ≡ operation_named C.Core.words name.now }
{
    match name {
        b"literal" => Some(Operation::Literal),
        b"function" => Some(Operation::Function),
        _ => {
            let Found { number, kind } = core.find(name)?;
            match kind {
                Kind::Operator(_) => Some(Operation::Operator(number)),
                Kind::Label(_) => None,
            }
        }
    }
}

// The label of a type, if the word found is one with at most 2 parts.
fn label_node(found: Found) -> Option<Node> {
    match found.kind {
        Kind::Label(0) => Some(Node::Label0(found.number)),
        Kind::Label(1) => Some(Node::Label1(found.number)),
        Kind::Label(2) => Some(Node::Label2(found.number)),
        _ => None,
    }
}

// The word of a label by its name, or of a leaf by its number behind `#`.
fn type_word<C: Core>(core: &C, name: &str) -> Option<u32> {
    let node = match name.strip_prefix("#") {
        Some(digits) => Node::Leaf(digits.parse().ok()?),
        None => label_node(core.find(name.as_bytes())?)?,
    };
    u32::try_from(node).ok()
}

// Texts and no Display, here and below: a table answers with words of its own where a question has no type.
// A word's name with its kind and number, if the core has it.
pub fn word_text<C: Core>(
    heap: Global,
    core: &C,
    name: &str,
) -> Result<Option<String>, AllocError> {
    let Some(Found { number, kind }) = core.find(name.as_bytes()) else {
        return Ok(None);
    };
    let text = match kind {
        Kind::Label(parts) => format!(in heap; "{number} {name}: label, {parts} parts")?,
        Kind::Operator(arguments) => format!(in heap;
            "{number} {name}: operator, {arguments} arguments"
        )?,
    };
    Ok(Some(text))
}

// The words of a type, each label by its name.
fn push_type<C: Core>(core: &C, words: &[u32], text: &mut String) -> anyhow::Result<()> {
    for word in words {
        text.push_str(" ")?;
        match Node::from(*word) {
            Node::Leaf(number) => write!(text, "#{number}")?,
            Node::Label0(label) | Node::Label1(label) | Node::Label2(label) =>
                match core.label_name(label) {
                    Some(name) => text.push_str(from_utf8(name)?)?,
                    None => text.push_str("?")?,
                },
        }
    }
    Ok(())
}

// A question with the core's answer behind it.
pub fn answer_text<C: Core>(heap: Global, core: &C, question: &str) -> anyhow::Result<String>
where
    C::Cause: Display,
{
    let mut text = String::from_str(heap, question)?;
    let (name, types) = question.split_once(" ").unwrap_or((question, ""));
    let Some(operation) = operation_named(core, name.as_bytes()) else {
        text.push_str(" -> no operation")?;
        return Ok(text);
    };
    let mut args = Vec::new(heap);
    for name in types.split_whitespace() {
        let Some(word) = type_word(core, name) else {
            text.push_str(" -> no type")?;
            return Ok(text);
        };
        args.push(word)?;
    }
    let mut out = [0; 40];
    match core.answer(operation, &args, &mut out) {
        Ok(n) => {
            text.push_str(" ->")?;
            push_type(core, &out[..n], &mut text)?;
        }
        Err(Refusal::Cause(cause)) => write!(text, " -> no {cause}")?,
        Err(Refusal::Size) => text.push_str(" -> size")?,
        Err(Refusal::Arguments) => text.push_str(" -> no whole types")?,
        Err(Refusal::Short) => text.push_str(" -> no room")?,
    }
    Ok(text)
}
