// The second pass over a text that reads: the questions about what is open and what is declared.
ghost use Rattle.std.specs.Prelude.{◌≡◌, ◌≤◌, true, length};
ghost use Rattle.reader.specs.Firsts.{text_notes};
ghost use Rattle.reader.specs.Surveys.{SurveyOf};
ghost use Rattle.reader.specs.Parsing.{start_of, is_accepted};
ghost use Rattle.reader.specs.Reading.{reads, default_rank};
ghost use Rattle.reader.specs.Streams.{stream_of};

use super::attributes::Met;
use super::class::Class;
use super::classify::class_of;
use super::fault::ReadFault;
use super::frame::{Frames, OUTERMOST, Origin};
use super::notes::{Firsts, Heads, note_of, place_of, span};
use super::parse::Start;
use super::row::{Entries, part};
use super::table::expand;
use cores::interface::Core;
use tokens::lexer::Tokens;

// The words for frames, and those for scopes: four for each entry, and at most one entry for each byte. The rest is for the places
// of heads.
const FRAME_WORDS: usize = 32_768;

const ROW_WORDS: usize = 16_384;

// Goes through a text that reads, and tells the first places where too much is open, where a name is declared again, where a lower
// head is not declared, and where, at or behind a place, a head names a unit; and the places of all heads that name units.
// Linear in the text times what is declared around its names.
// A loop like that of `parse`: this one asks only about a text that reads, and keeps more than a symbol.
pub fn go_through<'s, C: Core>(
    core: &C,
    text: &[u8],
    scratch: &'s mut [u32],
    start: Start,
    asked: usize,
) -> Result<(Firsts, &'s [u32]), ReadFault>
    requires text_len_bound { length text.now ≤ 4_000 }
    requires scratch_len { length scratch.old ≡ 65_536 }
    requires accepted { is_accepted (reads (start_of start) (stream_of C.Core.words text.now) default_rank) ≡ true }
    ensures { SurveyOf asked (text_notes start C.Core.words text.now) result }
{
    let (words, rest) = scratch.split_at_mut(FRAME_WORDS);
    let (row, places) = rest.split_at_mut(ROW_WORDS);
    let mut frames = Frames::new(words);
    frames.push_all(start.symbols(), &[], OUTERMOST);
    let mut entries = Entries::new(row);
    let mut heads = Heads::new(places);
    let mut firsts = Firsts::default();
    'tokens: for found in Tokens::new(text) {
        let found = found?;
        let (symbol, frame) = frames.pop();
        let class = class_of(core, found.token);
        let Some(after) = expand(symbol, class) else {
            return Err(ReadFault::Syntax(found.place));
        };
        let met = Met { symbol, class };
        let place = place_of(met, frame);
        let (from, end) = span(class, found.place, found.end);
        let scope = entries.scope(text, place.scope);
        let note = note_of(scope, place, met, part(text, from, end));
        firsts = firsts.after(note, found.place, asked);
        if note.is_unit() {
            heads.push(found.place);
        }
        let new = entries.enter(met.introduced(), place.scope, from as u32, end as u32);
        let origin = Origin { frame, place, new };
        frames.push_all(after.as_slice(), met.rules(), origin);
    }
    // The text's end is no token, so its note is taken by itself.
    let (last, frame) = frames.pop();
    let met = Met {
        symbol: last,
        class: Class::TextEnd,
    };
    let place = place_of(met, frame);
    let scope = entries.scope(text, place.scope);
    let note = note_of(scope, place, met, &[]);
    Ok((firsts.after(note, text.len(), asked), heads.into_places()))
}
