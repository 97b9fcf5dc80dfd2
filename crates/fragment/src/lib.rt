// A text as it is sent in fragments (document 01, "Fragments"; S8.7.8.3, S8.8.5, S8.8.6): a text cut into them, and one
// fragment read.
//
// What a fragment is stands in specs/Fragments, how a text is cut in specs/Cutting; what is told of each, with the
// refusals in the table's order, in specs/Answers and specs/CutAnswers. proofs/Laws and proofs/CutLaws show that the two
// agree: each fragment of a cut text reads as good, and their texts joined are the text.
#![tactic(auto)]

ghost use Rattle.std.specs.Prelude.{◌≡◌};
ghost use Rattle.refusal.specs.Told.{told_by};

// The heading of one fragment: what its first word says, its sum, how long its text is.
mod head;

// The characters of one fragment: counted, and written into lent bytes.
mod text;

// One fragment read as a whole: its heading and its text.
mod reading;

// A text cut into fragments.
mod cutting;

// What is answered, as C has it.
mod flat;

// Reading a fragment and cutting a text with C's answer.
pub mod for_c;

pub use cutting::cut;
pub use head::heading;
pub use reading::read;
pub use text::write_text;

// 01: "a text of up to 1,008 characters", which is also the room of a chain's slot.
pub const MOST_CHARACTERS: usize = 1008;

// 01: "2 to 85 words".
pub const FEWEST_WORDS: usize = 2;

pub const MOST_WORDS: usize = 85;

// The character that fills a word.
pub const ETX: u32 = 0x03;

// A character has seven bits: it is below this.
pub const CELL_LIMIT: u32 = 128;

// What a fragment says of itself: C, 1 where more follows; F, 3 in a first fragment; N; R, M and the signature of a first
// fragment, 0 of others; the sum modulo 128 of all its characters, fill and signature with them; and how many characters
// its text has.
#[derive(Clone, Copy, Debug, PartialEq, Eq)]
pub struct FragmentHeading {
    pub continued: u32,
    pub fragment_number: u32,
    pub message_number: u32,
    pub retrieval: u32,
    pub mail_drop: u32,
    pub signature: u32,
    pub sum: u32,
    pub characters: usize,
}

// A number beside the values, and numbers for flags, in the structs below with repr(C): the C interface has them so.

// What is told of a fragment: 01's number; C, 1 where more follows; F, 3 in a first fragment; N; R, M and the
// signature of a first fragment, 0 of others; the sum modulo 128 of all its characters, fill and signature with
// them; and how many characters its text has. All are 0 after a refusal.
#[repr(C)]
#[derive(Clone, Copy, Debug, PartialEq, Eq)]
pub struct FragmentRead {
    pub number: u32,
    pub continued: u32,
    pub fragment_number: u32,
    pub message_number: u32,
    pub retrieval: u32,
    pub mail_drop: u32,
    pub signature: u32,
    pub sum: u32,
    pub characters: usize,
}

// What the first fragment says of its message: N, the message number, 0 to 63; R, whether the pager expects its messages
// to be numbered; M, whether it is a mail drop.
#[repr(C)]
#[derive(Clone, Copy, Debug, PartialEq, Eq)]
pub struct Marks {
    pub message_number: u32,
    pub retrieval: u32,
    pub mail_drop: u32,
}

// A text cut: how many fragments, and how many words they are together. Each but the last has the largest size.
#[derive(Clone, Copy, Debug, PartialEq, Eq)]
pub struct CutSize {
    pub fragments: usize,
    pub words: usize,
}

// A text cut: how many fragments, and how many words they are together. Each but the last has the largest size. Both are 0
// after a refusal.
#[repr(C)]
#[derive(Clone, Copy, Debug, PartialEq, Eq)]
pub struct TextCut {
    pub number: u32,
    pub fragments: usize,
    pub words: usize,
}
