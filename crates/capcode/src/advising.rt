// What a person is told of a text that is refused: which sentence of the table in `refusal` says where it goes wrong and how to
// mend it.
ghost use Rattle.std.specs.Prelude.{◌≡◌, ◌≤◌, length};
ghost use Rattle.laws.specs.Lists.{all};
ghost use Rattle.refusal.specs.Told.{number_told};
ghost use Rattle.capcode.specs.Assigned.{assigned};
ghost use Rattle.capcode.specs.Reads.{form_of};
ghost use Rattle.capcode.specs.Advice.{say, told_advice, head_digits, short_advice, many_advice, is_marked, is_blank, is_said, blank_advice};
ghost use Rattle.capcode.specs.Advice.{capital_of, letter_advice, other_advice, wrong_advice, advice_of};

use crate::assigning::{is_framed, is_standard};
use crate::reading::{Wrong, form_of, is_digit, letter_goes_on};
use crate::{Advice, Capcode};

// How many digits a text begins with.
fn head_digits(text: &[u8]) -> usize
    ensures { result ≡ head_digits text.now }
{
    text.iter()
        .position(|byte| !is_digit(*byte))
        .unwrap_or(text.len())
}

// What is told of a text that stops too soon.
#[tactic(auto, using(crate::proofs::AdviceLaws::head_within))]
fn advise_short(text: &[u8]) -> Advice
    ensures { told_advice result ≡ short_advice text.now }
{
    if text.len() == 0 {
        return Advice::EmptyLine;
    }
    let head = head_digits(text);
    if head == text.len() {
        return Advice::NoLetter;
    }
    if text.len() - head < 8 {
        return Advice::TooFewOfSeven;
    }
    Advice::TooFewOfTen
}

// Whether a text begins with a byte-order mark.
fn is_marked(text: &[u8]) -> bool
    ensures { result ≡ is_marked text.now }
{
    text.starts_with(&[0xEF, 0xBB, 0xBF])
        | text.starts_with(&[0xFF, 0xFE])
        | text.starts_with(&[0xFE, 0xFF])
}

fn is_blank(byte: u8) -> bool
    ensures { result ≡ is_blank byte }
{
    matches!(byte, b' ' | b'\t')
}

// Whether a text has nothing but blanks.
fn has_blanks_only(text: &[u8]) -> bool
    ensures { result ≡ all is_blank text.now }
{
    text.iter().all(|byte| is_blank(*byte))
}

// Whether a text is in the form.
fn is_said(text: &[u8]) -> bool
    ensures { result ≡ is_said (form_of text.now) }
{
    form_of(text).is_ok()
}

// The capital of a small letter.
fn capital_of(byte: u8) -> Option<u8>
    ensures { result ≡ capital_of byte }
{
    if (b'a' <= byte) & (byte <= b'z') {
        return Some(byte - 32);
    }
    None
}

impl Wrong<'_> {
    // What is told of a digit too many after the letter.
    fn advise_many(self) -> Advice
        ensures { told_advice result ≡ many_advice self.entry.text.now self.entry.place }
    {
        if self.place < 11 {
            return Advice::TooManyOfSeven;
        }
        if self.place - 11 < head_digits(self.text) {
            return Advice::TooManyOfSeven;
        }
        Advice::TooManyOfTen
    }

    // What is told of a blank.
    fn advise_blank(self) -> Advice
        ensures { told_advice result ≡ blank_advice self.entry.text.now self.entry.place }
    {
        let before = is_said(&self.text[..self.place]);
        let after = has_blanks_only(&self.text[self.place..]);
        if (before & after) & (self.text.len() < 16) {
            return Advice::BlankAtTheEnd;
        }
        Advice::Blank
    }

    // What is told of a byte that is neither a digit nor a blank.
    fn advise_letter(self, byte: u8) -> Advice
        ensures { told_advice result ≡ letter_advice self.entry.text.now self.entry.place byte }
    {
        let before = self.is_before_letter();
        if let Some(capital) = capital_of(byte) {
            if letter_goes_on(self.place as u32, capital) & before {
                return Advice::LowerCase(capital);
            }
        }
        if ((byte == b'O') | (byte == b'o')) & !before {
            return Advice::LetterO;
        }
        if (is_standard(byte) | is_framed(byte)) & before {
            return Advice::DigitsBefore;
        }
        Advice::Character
    }

    // What is told of a byte that is no digit.
    fn advise_other(self, byte: u8, first: bool) -> Advice
        ensures { told_advice result ≡ other_advice first self.entry.text.now self.entry.place byte }
    {
        if first & is_marked(self.text) {
            return Advice::ByteOrderMark;
        }
        if is_blank(byte) {
            return self.advise_blank();
        }
        self.advise_letter(byte)
    }

    // What is told of a text that goes wrong at a place.
    #[tactic(auto, unfolding(crate::specs::Advice::wrong_advice))]
    fn advise(self, first: bool) -> Advice
        ensures { told_advice result ≡ wrong_advice first self.entry.text.now self.entry.place }
    {
        if self.place == self.text.len() {
            return advise_short(self.text);
        }
        let byte = self.text[self.place];
        if !is_digit(byte) {
            return self.advise_other(byte, first);
        }
        if self.is_before_letter() {
            return Advice::Refused(self.refusal());
        }
        self.advise_many()
    }
}

// What is told of a text in the form: the sentence of its refusal, or none.
fn advise_said(c: Capcode) -> Advice
    ensures { told_advice result ≡ say (number_told (assigned c)) }
{
    match crate::assigning::assign(c) {
        Ok(_) => Advice::Fine,
        Err(refusal) => Advice::Refused(refusal),
    }
}

// What a person is told of a text; `first` says that it is the first line of a file.
pub fn advise(text: &[u8], first: bool) -> Advice
    ensures { told_advice result ≡ advice_of first text.now }
{
    match form_of(text) {
        Ok(c) => advise_said(c),
        Err(place) => Wrong { text, place }.advise(first),
    }
}
