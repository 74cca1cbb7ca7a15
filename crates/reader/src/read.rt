// Reading a unit or a signature: the questions in their order.
ghost use Rattle.std.specs.Prelude.{◌≡◌, length, IfOk};
ghost use Rattle.tokens.specs.Lexer.{next_token};
ghost use Rattle.reader.specs.Mentions.{mention_answer, MentionMeaning, head_name, heads_answer, HeadsMeaningOf, Inside};
ghost use Rattle.reader.specs.Answers.{asked, headed, name_in, upper_at, unit_answer, UnitMeaning, signature_answer, SignatureMeaning};
ghost use Rattle.reader.specs.Named.{named_at, mentioned, held};
ghost use Rattle.reader.specs.Annotate.{unit_places};
ghost use Rattle.reader.specs.Firsts.{text_notes};
ghost use Rattle.reader.specs.Parsing.{start_of, outcome};
ghost use Rattle.reader.specs.Reading.{OneTree, PrintsAreRead, reads, default_rank};
ghost use Rattle.reader.specs.Streams.{stream_of};
ghost use Rattle.reader.specs.Surveys.{ranked, Surveyed};
ghost use Rattle.reader.specs.View.{shown};

use super::fault::ReadFault;
use super::notes::Firsts;
pub use super::parse::Start;
use super::parse::parse;
use super::statics::go_through;
use cores::interface::Core;
use tokens::lexer::{self, Placed, next};
use tokens::token::Token;

// Core, text and scratch stay parameters of their own below: no value holds a core and the lent memory together.

// The words of scratch that reading is lent.
pub const SCRATCH_WORDS: usize = 65_536;

// The most bytes of a text.
pub const TEXT_LIMIT: usize = lexer::TEXT_LIMIT;

// What is learned of a unit besides that it reads: its name, as the part of the text that spells it, with its place, and its rank.
#[derive(Clone, Copy, PartialEq, Eq, Debug)]
pub struct UnitHeading<'a> {
    pub name: &'a [u8],
    pub place: usize,
    pub rank: u8,
}

// The upper name that is the next token from a place on, with its place, if it is one. Linear in the text from there to its end.
fn name_at(text: &[u8], from: usize) -> Option<(&[u8], usize)>
    ensures { named_at result ≡ upper_at (next_token text.now from) }
{
    match next(text, from) {
        Ok(
            Some(
                Placed {
                    token: Token::Upper(name),
                    place,
                    ..
                },
            ),
        ) => Some((name, place)),
        _ => None,
    }
}

// The second token of a text, if it is an upper name. Linear in the text up to there.
fn name_in(text: &[u8]) -> Option<(&[u8], usize)>
    ensures { named_at result ≡ name_in text.now }
{
    let first = next(text, 0).ok()??;
    name_at(text, first.end)
}

// What is learned of a text that reads.
#[derive(Clone, Copy, PartialEq, Eq, Debug)]
struct Survey<'s> {
    pub rank: u32,
    // the first places about which the static questions ask
    pub firsts: Firsts,
    // the places of the heads that name units, in the text's order
    pub heads: &'s [u32],
}

// What is learned of a text that is read as a unit or a signature, or why it does not read. Asked about heads from a place on.
// Linear in the text times what is declared around its names, with a look among the core's words for each lower name.
fn survey_of<'s, C: Core>(
    core: &C,
    text: &[u8],
    scratch: &'s mut [u32],
    start: Start,
    from: usize,
) -> Result<Survey<'s>, ReadFault>
    ensures rank { ranked result ≡ asked (length scratch.old) (length text.now) (outcome (reads (start_of start) (stream_of C.Core.words text.now) default_rank)) }
    ensures firsts { IfOk result (λ s. Surveyed from (text_notes start C.Core.words text.now) s.firsts) }
    ensures heads { IfOk result (λ s. s.heads.now ≡ unit_places (text_notes start C.Core.words text.now)) }
{
    if scratch.len() != SCRATCH_WORDS {
        return Err(ReadFault::Scratch);
    }
    if text.len() > TEXT_LIMIT {
        return Err(ReadFault::TooLong);
    }
    let rank = parse(core, text, scratch, start)?;
    let (firsts, heads) = go_through(core, text, scratch, start, from)?;
    Ok(Survey {
        rank,
        firsts,
        heads,
    })
}

// Reads a unit: its heading, or the first question that it answers with no. The scratch is used up.
// Linear in the text times what is declared around its names, with a look among the core's words for each lower name.
pub fn read_unit<'a, C: Core>(
    core: &C,
    text: &'a [u8],
    scratch: &mut [u32],
) -> Result<UnitHeading<'a>, ReadFault>
    ensures answer { headed result ≡ unit_answer C.Core.words text.now (length scratch.old) }
    ensures meaning { UnitMeaning C.Core.words text.now (length scratch.old) (headed result) }
{
    let found = survey_of(core, text, scratch, Start::Unit, 0)?;
    found.firsts.verdict()?;
    let (name, place) = name_in(text).ok_or(ReadFault::Syntax(text.len()))?;
    Ok(UnitHeading {
        name,
        place,
        rank: found.rank as u8,
    })
}

// Reads a signature alone: nothing but that it reads, or the first question that it answers with no.
// Linear in the text times what is declared around its names, with a look among the core's words for each lower name.
pub fn read_signature<C: Core>(core: &C, text: &[u8], scratch: &mut [u32]) -> Result<(), ReadFault>
    ensures answer { result ≡ signature_answer C.Core.words text.now (length scratch.old) }
    ensures meaning { SignatureMeaning C.Core.words text.now (length scratch.old) result }
{
    let found = survey_of(core, text, scratch, Start::Signature, 0)?;
    found.firsts.verdict()
}

// A list of tokens is written by at most one tree, and what a tree writes is read back. Nothing is computed.
pub fn one_tree_stands()
    ensures one { OneTree }
    ensures back { PrintsAreRead }
{}

// The first head of a unit's text, at or behind a place, that names a unit: the name as the part of the text that spells it, with
// its place. Asked again behind each answer it goes through all of them. Linear in the text times what is declared around its names.
pub fn mentioned_unit<'a, C: Core>(
    core: &C,
    text: &'a [u8],
    scratch: &mut [u32],
    from: usize,
) -> Result<Option<(&'a [u8], usize)>, ReadFault>
    ensures answer { mentioned result ≡ mention_answer C.Core.words text.now (length scratch.old) from }
    ensures meaning { MentionMeaning C.Core.words text.now (length scratch.old) from (mentioned result) }
{
    let found = survey_of(core, text, scratch, Start::Unit, from)?;
    Ok(found.firsts.mention.and_then(|place| name_at(text, place)))
}

// The places of the heads of a text that name units, in the text's order, in a part of the scratch; the text is read as a unit or as
// a signature alone. The questions about what is open and declared are not asked. Linear in the text times what is declared around
// its names.
pub fn heads_of<'s, C: Core>(
    core: &C,
    text: &[u8],
    scratch: &'s mut [u32],
    start: Start,
) -> Result<&'s [u32], ReadFault>
    ensures answer { held result ≡ heads_answer start C.Core.words text.now (length scratch.old) }
    ensures meaning { HeadsMeaningOf start C.Core.words text.now (length scratch.old) (held result) }
    ensures inside { Inside (length text.now) (held result) }
{
    let found = survey_of(core, text, scratch, start, 0)?;
    Ok(found.heads)
}

// The upper name that is the next token from a place on, if it is one: at the place of a head, the name of the head.
// Linear in the text from there to its end.
pub fn head_name(text: &[u8], place: usize) -> Option<&[u8]>
    ensures { shown result ≡ head_name text.now place }
{
    name_at(text, place).map(|(name, _)| name)
}
