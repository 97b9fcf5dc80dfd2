// The parts of a listing of POCSAG pages (02, item 5) that decide what it says: which words the bytes of an input are, how
// the text of a page is read, and how it is shown. The program that reads and writes is `pocsag_listing`.
//
// Read specs/Inputs, specs/Tokens (a byte of a text), specs/RawWords (a byte of bytes), specs/Runs (a whole text),
// specs/Collecting (a portion) and specs/Pages (how a page is listed). That the words of a text are its runs of characters
// is in proofs/Runs, and that they are the same however the input is divided in proofs/Divided.
#![tactic(auto)]

ghost use Rattle.std.specs.Prelude.{◌≡◌, ℕ, Option};
ghost use Rattle.pocsag_lister.specs.declared.Token.{Token};
ghost use Rattle.pocsag_lister.specs.declared.Taken.{Taken};
ghost use Rattle.pocsag_lister.specs.declared.Left.{Left};
ghost use Rattle.pocsag_lister.specs.Tokens.{taken_text, left_of_text};
ghost use Rattle.pocsag_lister.specs.RawWords.{taken_raw, left_over};

// What is found in the bytes of an input.
mod finding;

// Words as text.
mod tokens;

// Words as bytes.
mod raw;

// The words of a portion.
mod collecting;

// The kind of a page.
mod kinds;

// An address as it is shown.
mod showing;

pub use collecting::collect;
pub use finding::{start, word_heard};
pub use kinds::{kind_chosen, kind_of, listed_as, listed_kind};
pub use lister::{Shown, shown_byte};
use refusal::Refusal;
pub use showing::seven_digits;

// Where the reading of an input is: the line and the place in it of the next byte; and of the run or word that is begun the
// place to be reported, the number of its refusal or 0, how many characters or bytes it has (of a run up to 9, which is for
// more than eight), and the number that they make. Of bytes the place is counted over the whole input.
// A number and not a Refusal: callers pass a token in, and its number may be any, as before.
#[derive(Clone, Copy, Debug, PartialEq, Eq)]
pub struct Token {
    pub line: u64,
    pub place: u64,
    pub at: u64,
    pub number: u32,
    pub count: u32,
    pub value: u32,
}

// A run of characters that is no word: the number of its refusal, its line, and the place in the line to be reported.
#[derive(Clone, Copy, Debug, PartialEq, Eq)]
pub struct WrongRun {
    pub number: u32,
    pub line: u64,
    pub place: u64,
}

// What a byte does: where the reading is after it, and the word that it finishes, or the run of characters that is none.
#[derive(Clone, Copy, Debug, PartialEq, Eq)]
pub struct Taken {
    pub token: Token,
    pub found: Option<Result<u32, WrongRun>>,
}

// What is left where an input ends.
#[derive(Clone, Copy, Debug, PartialEq, Eq)]
pub enum Left {
    // A run that no blank ends: a word, or a run of characters that is none.
    Run(Result<u32, WrongRun>),
    // Bytes that make no word, by the place of the first.
    Bytes { refusal: Refusal, place: u64 },
}

// What was collected from a portion: where the reading is, how many bytes were taken, how many words they made, and the run
// of characters after those that is no word, if there is one.
#[derive(Clone, Copy, Debug, PartialEq, Eq)]
pub struct Collected {
    pub token: Token,
    pub taken: usize,
    pub count: usize,
    pub wrong: Option<WrongRun>,
}

// How the words of an input are written: what a byte does, and what is left where the input ends.
pub trait Input {
    ghost taken: { Token → ℕ → Taken };

    ghost left: { Token → Option Left };

    // Takes a byte.
    fn take(token: Token, byte: u8) -> Taken
        ensures { result ≡ taken token byte };

    // What is left where the input ends.
    fn left(token: Token) -> Option<Left>
        ensures { result ≡ left token };
}

// Words as text: runs of eight hexadecimal digits between blanks, in any layout.
#[derive(Clone, Copy, Debug, PartialEq, Eq)]
pub struct TextInput {}

impl Input for TextInput {
    ghost taken = { taken_text };

    ghost left = { left_of_text };

    fn take(token: Token, byte: u8) -> Taken {
        tokens::take_text(token, byte)
    }

    fn left(token: Token) -> Option<Left> {
        tokens::finished(token).map(Left::Run)
    }
}

// Words as bytes: four to a word, the highest first.
#[derive(Clone, Copy, Debug, PartialEq, Eq)]
pub struct RawInput {}

impl Input for RawInput {
    ghost taken = { taken_raw };

    ghost left = { left_over };

    fn take(token: Token, byte: u8) -> Taken {
        raw::take_raw(token, byte)
    }

    fn left(token: Token) -> Option<Left> {
        raw::left_over(token)
    }
}

// What a page is listed as.
#[derive(Clone, Copy, Debug, PartialEq, Eq)]
pub enum Kind {
    Tone,
    Numeric,
    Text,
}
