// The kind of a page: how its text is read, and what it is listed as.
ghost use Rattle.std.specs.Prelude.{◌≡◌};
ghost use Rattle.pocsag_lister.specs.Pages.{kind_chosen, listed_kind, kind_of, listed_as};

use crate::Kind;
use pocsag::TextKind;

// The kind of a page's text: the one that was chosen, if one was, and by convention numeric for function 0, seven-bit for
// every other.
pub fn kind_chosen(chosen: Option<TextKind>, function: u32) -> TextKind
    ensures { result ≡ kind_chosen chosen function }
{
    match (chosen, function) {
        (Some(kind), _) => kind,
        (None, 0) => TextKind::Numeric,
        (None, _) => TextKind::SevenBit,
    }
}

// What a page is listed as: by the kind of its text, or as a tone if it has no message words.
pub fn listed_kind(kind: TextKind, words: usize) -> Kind
    ensures { result ≡ listed_kind kind words }
{
    if words == 0 {
        return Kind::Tone;
    }
    match kind {
        TextKind::SevenBit => Kind::Text,
        TextKind::Numeric | TextKind::NumericChinese => Kind::Numeric,
    }
}

// The kind of a page's text: the one that was chosen, and by convention numeric for function 0, seven-bit for every other.
// By a number, as before: what may not change.
pub fn kind_of(chosen: u32, function: u32) -> u32
    ensures { result ≡ kind_of chosen function }
{
    kind_chosen(TextKind::try_from(chosen).ok(), function).number()
}

// What a page is listed as: by the kind of its text, or as a tone where it has no message words.
// By a number, as before: what may not change.
pub fn listed_as(kind: u32, words: usize) -> Kind
    ensures { result ≡ listed_as kind words }
{
    listed_kind(TextKind::try_from(kind).unwrap_or(TextKind::Numeric), words)
}
