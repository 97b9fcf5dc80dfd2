// CAPCODEs (document 01, "CAPCODE text"; S8.6): from the text on a label to the words that the decoder is given, and back.
// A CAPCODE is characters: its zeros stay.
//
// The definitions, in the order of the paper: which addresses are accepted (specs/Ranges, and specs/Halving for how their
// table is searched), the words of an address (specs/Words), what a CAPCODE assigns (specs/Assigned), its text (specs/Text),
// how a text is read (specs/Reads, and specs/Underway for a reader in the middle of one), what a person is told of one that
// is refused (specs/Advice), and how one is printed (specs/Printed). The laws: proofs/RangeLaws, proofs/HalvingLaws and
// proofs/Bounds, proofs/WordLaws, proofs/Laws, proofs/Places and proofs/Faults (which texts are read as what, where a wrong one
// goes wrong, and by which number), proofs/PrintLaws.
#![tactic(auto)]

ghost use Rattle.std.specs.Prelude.{◌≡◌};
ghost use Rattle.capcode.specs.Ranges.{class_number};
ghost use Rattle.capcode.specs.Advice.{row_of, letter_of};

// The accepted ranges of addresses, and the class of an address.
mod ranges;

// The words of an address, and the address of words.
mod wording;

// The phase and base frame that a CAPCODE assigns.
mod assigning;

// A text read as a CAPCODE.
mod reading;

// What a person is told of a text that is refused.
mod advising;

// A CAPCODE printed as text.
mod printing;

pub use advising::advise;
pub use assigning::assign;
pub use printing::print;
pub use ranges::class_of;
pub use reading::read;
use refusal::Refusal;
pub use wording::{pair_address, word_address, words_of};

// What an accepted address is for: a row of Table 22, by 01's words.
#[derive(Clone, Copy, Debug, PartialEq, Eq)]
pub enum Class {
    Short = 1,
    InformationService = 2,
    Network = 3,
    Operator = 4,
    Set12 = 5,
    Set13 = 6,
    Set14 = 7,
    Set23Country = 8,
    Set23InformationService = 9,
}

impl Class {
    // The class as a number: 01's rows in order, 1 to 9.
    pub fn number(self) -> u32
        ensures { result ≡ class_number self }
    {
        self as u32
    }
}

// The words of an address, as the decoder's address packets take them.
#[derive(Clone, Copy, Debug, PartialEq, Eq)]
pub enum Words {
    One(u32),
    Two(u32, u32),
}

// What a CAPCODE says. The letter is its byte. `frame` is the three frame digits of U to Z; A to L have
// none, and there it is 0. A collapse of 4 is what A to L mean where they have no digit. Both are wider than any that is
// accepted, so that one too large is refused and not cut.
// The C interface hands these four fields in, so that frame and collapse are numbers and no Option.
#[derive(Clone, Copy, Debug, PartialEq, Eq)]
pub struct Capcode {
    pub letter: u8,
    pub frame: u32,
    pub collapse: u32,
    pub address: u64,
}

// The phase and the base frame of a CAPCODE: phases A to D are 0 to 3 (S8.6.5), any-phase is 4.
#[derive(Clone, Copy, Debug, PartialEq, Eq)]
pub struct Assignment {
    pub phase: u8,
    pub frame: u8,
}

// Why a text is refused: it is not in the form, with the refusal and the place at which it goes wrong, 0 to 15; or it says a
// CAPCODE that is refused.
#[derive(Clone, Copy, Debug, PartialEq, Eq)]
pub enum Fault {
    Wrong(Refusal, u8),
    Refused(Refusal),
}

impl From<Refusal> for Fault {
    ghost use Rattle.capcode.specs.declared.Fault.{Fault};

    ghost from_gives = { λ r fault. fault ≡ Fault.Refused r };

    fn from(r: Refusal) -> Fault {
        Fault::Refused(r)
    }
}

// What a person is told of a text: nothing, the sentence of its refusal, or what is wrong with it and how to mend it.
#[derive(Clone, Copy, Debug, PartialEq, Eq)]
pub enum Advice {
    // Nothing is refused.
    Fine,
    // The sentence of a refusal.
    Refused(Refusal),
    EmptyLine,
    NoLetter,
    // Fewer than seven digits after the letter, or fewer than ten.
    TooFewOfSeven,
    TooFewOfTen,
    // A digit too many where seven were enough, or after ten.
    TooManyOfSeven,
    TooManyOfTen,
    ByteOrderMark,
    BlankAtTheEnd,
    // A blank elsewhere.
    Blank,
    // A small letter, with the capital to write.
    LowerCase(u8),
    // An O among the digits.
    LetterO,
    // A letter after digits that cannot stand before it.
    DigitsBefore,
    // A character that no CAPCODE has there.
    Character,
}

impl Advice {
    // The row of its sentence in the table of `refusal`, 0 where there is none.
    pub fn row(self) -> u32
        ensures { result ≡ row_of self }
    {
        match self {
            Advice::Fine => 0,
            Advice::Refused(refusal) => refusal.number(),
            Advice::EmptyLine => 40,
            Advice::NoLetter => 41,
            Advice::TooFewOfSeven => 42,
            Advice::TooFewOfTen => 43,
            Advice::TooManyOfSeven => 44,
            Advice::TooManyOfTen => 45,
            Advice::ByteOrderMark => 46,
            Advice::BlankAtTheEnd => 47,
            Advice::Blank => 48,
            Advice::LowerCase(_) => 49,
            Advice::LetterO => 50,
            Advice::DigitsBefore => 51,
            Advice::Character => 52,
        }
    }

    // The letter to write after the sentence.
    pub fn letter(self) -> Option<u8>
        ensures { result ≡ letter_of self }
    {
        match self {
            Advice::LowerCase(capital) => Some(capital),
            _ => None,
        }
    }
}

// 01: "An address up to 2031614 is seven digits; a larger one is ten".
pub const LAST_OF_SEVEN: u64 = 2031614;
