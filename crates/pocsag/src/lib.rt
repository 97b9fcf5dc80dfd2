// POCSAG pages (02, item 5; CCIR Radiopaging Code No. 1, the code of document 003): received words are mended, sorted into
// batches, and joined to pages, whose text is numeric or of seven-bit characters.
//
// Read specs/Codewords (which words are sent, and which bits have which remainder), specs/Mending (what a received word is
// mended to), specs/Batches (what a word means at its place, and what becomes of a page), specs/Hearing (rows of words) and
// specs/Texts (the text of a page); specs/Runs is any run of words, with the pages that end in it. The sender is in
// specs/Sender, and how its words may come in specs/Received. What the code can be relied on for is in proofs/CodeLaws, that
// portions of any size come to the same in proofs/Portions, that a page which is sent is handed out in proofs/Sending, and that
// a page which is handed out is what the words said in proofs/Truth.
#![tactic(auto)]

ghost use Rattle.std.specs.Prelude.{◌≡◌};
ghost use Rattle.refusal.specs.Told.{told_by};
ghost use Rattle.pocsag.specs.Texts.{kind_number, KindOf, text_values, as_text};

// The table of the wrong bits, and the remainders of parts of a word.
mod layout;
mod parts;
mod table;

// The code: a received word is mended, or is beyond repair.
mod code;

// One word: what it means at its place in the batch, and what becomes of the open page.
mod batch;

// Rows of words, and the close.
mod hearing;

// The text of a page.
mod text;

// Mending words and reading a page with C's answer.
pub mod for_c;

pub use code::mend;
pub use hearing::{close, hear};
use refusal::Refusal;
pub use text::{read, read_as};

// The two words of the code that are no page's. Numbers and no enum: they are compared with words, and the C header has them.
#[derive(Clone, Copy, Debug, PartialEq, Eq)]
pub struct Codeword {}

impl Codeword {
    // 02, item 5: "sync word 7CD215D8": it stands before each batch.
    pub const SYNC: u32 = 0x7CD2_15D8;

    // 02, item 5: "idle word 7A89C197": it stands where there is nothing to send, and ends a page.
    pub const IDLE: u32 = 0x7A89_C197;
}

// How the text of a page is read. Nothing in a page says how its sender wrote it; by convention function 0 is numeric and
// function 3 is text.
#[derive(Clone, Copy, Debug, PartialEq, Eq)]
pub enum TextKind {
    // Four bits a character, the set of Table 39 with the option off.
    Numeric = 0,
    // Four bits a character, the set of Table 39 with the option on.
    NumericChinese = 1,
    // Seven bits a character.
    SevenBit = 2,
}

impl TextKind {
    // The number by which C chooses a kind.
    pub fn number(self) -> u32
        ensures { result ≡ kind_number self }
    {
        self as u32
    }
}

// The kind of a number, or packet (7) if no kind has it.
impl TryFrom<u32> for TextKind {
    type Error = Refusal;

    ghost try_from_gives = { KindOf };

    fn try_from(number: u32) -> Result<Self, Refusal> {
        match number {
            0 => Ok(TextKind::Numeric),
            1 => Ok(TextKind::NumericChinese),
            2 => Ok(TextKind::SevenBit),
            _ => Err(Refusal::Packet),
        }
    }
}

// A word mended, and how many of its bits were changed.
#[derive(Clone, Copy, Debug, PartialEq, Eq)]
pub struct Mended {
    pub word: u32,
    pub bits: u32,
}

// What a word means at its place.
#[derive(Clone, Copy, Debug, PartialEq, Eq)]
pub enum Meaning {
    // A sync word where one must stand.
    Sync,
    // A word beyond repair where a sync word must stand.
    SyncDamaged,
    // Another word where a sync word must stand.
    SyncMissing,
    // A sync word before its batch was full.
    SyncEarly,
    // A word of a batch that is beyond repair.
    Damaged,
    // The idle word.
    Idle,
    // An address word: the address, with the number of its frame, and the function.
    Address(u32, u32),
    // A message word: its twenty message bits, the first that was sent the lowest.
    Message(u32),
}

// A flag and a number in place of an Option of a Result: C hands any numbers back, and all of them have a meaning.

// Where the reading stands. Zeros are a fresh start, and whatever is handed back has a meaning.
//
// `left` is how many words of the batch are still to come, 1 to 16; where it is 0, or larger, a sync word must come next.
// `is_open` is not 0 while a page is open. Then there are: its address and function; how many of its message words have come
// whole, which stand at the start of the lent memory; how many bits were mended in its words; and its fault: 0 for none, 15
// where it became longer than the lent memory, and any other number, which is 25, where a word of it was beyond repair.
#[repr(C)]
#[derive(Clone, Copy, Debug, PartialEq, Eq)]
pub struct PocsagReader {
    pub left: u32,
    pub is_open: u32,
    pub address: u32,
    pub function: u32,
    pub words: usize,
    pub mended: u32,
    pub fault: u32,
}

// A flag and a number in place of an Option of a Result: the C interface hands it out as it is.

// A page that has ended, where `is_ended` is 1: its number, address and function, how many of its message words came whole,
// and how many bits were mended. With the number 0 it is handed out. Otherwise it went wrong at the word after those: 25
// where that word was beyond repair, 26 where the sync was lost there, or the words ended, before the end of the page was
// heard, 15 where there was no room for it.
#[repr(C)]
#[derive(Clone, Copy, Debug, PartialEq, Eq)]
pub struct PocsagPage {
    pub is_ended: u32,
    pub number: u32,
    pub address: u32,
    pub function: u32,
    pub words: usize,
    pub mended: u32,
}

// What one word does: whether it is refused, the page that ended at it, and where the reading stands after it.
#[derive(Clone, Copy, Debug, PartialEq, Eq)]
pub struct Step {
    pub told: Result<(), Refusal>,
    pub page: PocsagPage,
    pub reader: PocsagReader,
}

// A number and no Result: the reader is handed back by value beside it, after a refusal too.

// What a row of words did, up to the first that has something to tell: its number, how many words were taken, the page that
// ended at it, and where the reading stands.
#[repr(C)]
#[derive(Clone, Copy, Debug, PartialEq, Eq)]
pub struct PocsagHeard {
    pub number: u32,
    pub taken: usize,
    pub page: PocsagPage,
    pub reader: PocsagReader,
}

// A text read: how many characters it has, and how many of them at the end are fill.
#[derive(Clone, Copy, Debug, PartialEq, Eq)]
pub struct TextRead {
    pub characters: usize,
    pub fill_at_end: usize,
}

// A number beside the counts: the C interface hands it out as it is.

// A text read: how many characters it has, and how many of them at the end are fill. Both are 0 after a refusal.
#[repr(C)]
#[derive(Clone, Copy, Debug, PartialEq, Eq)]
pub struct PocsagText {
    pub number: u32,
    pub characters: usize,
    pub fill_at_end: usize,
}

impl From<Result<TextRead, Refusal>> for PocsagText {
    ghost from_gives = { λ read answer. answer ≡ as_text (told_by text_values read) };

    fn from(read: Result<TextRead, Refusal>) -> PocsagText {
        match read {
            Ok(text) => PocsagText {
                number: 0,
                characters: text.characters,
                fill_at_end: text.fill_at_end,
            },
            Err(refusal) => PocsagText {
                number: refusal.number(),
                characters: 0,
                fill_at_end: 0,
            },
        }
    }
}
