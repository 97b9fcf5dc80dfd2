// Numeric pages (document 01, "Numeric pages"; S8.7.8.2, Tables 39, 41 and 42): a text as message words, and the words of
// one as text. A page is characters, and its zeros stay.
//
// What the words of a page are is said in specs/Pages, when one is refused and what is told of it in specs/Answers. The
// round trip is in proofs/Laws, and so is the law `cell`, which says as the tables do which bit of which character stands
// where. What 02, item 6 asks of the two sets and of the spaces at the end is in proofs/Choices.
#![tactic(auto)]

ghost use Rattle.std.specs.Prelude.{◌≡◌};
ghost use Rattle.refusal.specs.Told.{told_by};
ghost use Rattle.numeric.specs.Answers.{written_values, as_written, read_values, as_read};

// The two sets of characters.
mod sets;

// What stands before the characters of a page, and how many there is room for.
mod page;

// A text as the message words of a page, with its K.
mod writing;

// The words of a page as text, and the character of a code.
mod reading;

// Writing and reading a page with C's answer.
pub mod for_c;

pub use reading::{character_of, read};
use refusal::Refusal;
pub use sets::CharacterSet;
pub use writing::write;

// 01: "w words (1 to 8)".
pub const MOST_WORDS: usize = 8;

// Flags as numbers: the C interface hands them in and out as they are.

// What the head of a numbered page says: N, the message number, 0 to 63; R, whether the pager expects its
// messages to be numbered; S, whether a special format shows it. All 0 with the other kinds.
#[repr(C)]
#[derive(Clone, Copy, Debug, Default, PartialEq, Eq)]
pub struct Numbering {
    pub message_number: u32,
    pub retrieval: u32,
    pub special_format: u32,
}

// What was written of a page: K for its vector, and how many words.
#[derive(Clone, Copy, Debug, Default, PartialEq, Eq)]
pub struct PageWords {
    pub check: u32,
    pub words: usize,
}

// What was read of a page: what its head says, how many characters it has, and how many of them are spaces at its end.
#[derive(Clone, Copy, Debug, Default, PartialEq, Eq)]
pub struct PageText {
    pub numbering: Numbering,
    pub characters: usize,
    pub spaces_at_end: usize,
}

// A page written: K for its vector, and how many words. Both are 0 after a refusal.
#[repr(C)]
#[derive(Clone, Copy, Debug, PartialEq, Eq)]
pub struct Written {
    pub number: u32,
    pub check: u32,
    pub words: usize,
}

// A page read: what its head says, how many characters it has, and how many of them are spaces at its end. All are 0 after
// a refusal.
#[repr(C)]
#[derive(Clone, Copy, Debug, PartialEq, Eq)]
pub struct PageRead {
    pub number: u32,
    pub numbering: Numbering,
    pub characters: usize,
    pub spaces_at_end: usize,
}

// The C interface has the number beside the values.
impl From<Result<PageWords, Refusal>> for Written {
    ghost from_gives = { λ answer written. written ≡ as_written (told_by written_values answer) };

    fn from(answer: Result<PageWords, Refusal>) -> Written {
        let (number, page) = match answer {
            Ok(page) => (0, page),
            Err(refusal) => (refusal.number(), PageWords::default()),
        };
        Written {
            number,
            check: page.check,
            words: page.words,
        }
    }
}

// As for `Written`.
impl From<Result<PageText, Refusal>> for PageRead {
    ghost from_gives = { λ answer read. read ≡ as_read (told_by read_values answer) };

    fn from(answer: Result<PageText, Refusal>) -> PageRead {
        let (number, page) = match answer {
            Ok(page) => (0, page),
            Err(refusal) => (refusal.number(), PageText::default()),
        };
        PageRead {
            number,
            numbering: page.numbering,
            characters: page.characters,
            spaces_at_end: page.spaces_at_end,
        }
    }
}
