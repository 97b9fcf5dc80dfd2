// Calls in a frame (document 01, "Calls in a frame"; S8.7, S8.8.2): which message words belong to which page. The records of
// the eight calls go in and come back by value, the words lie in a lent memory of 8 times 85.
//
// Read specs/Calls (the records, when they are sound), specs/Words (whose a word is, and the lent memory), specs/Steps (what
// a packet does to a row of records of any length) and specs/Answers (what is told, with the refusals in the table's
// order); specs/Runs is any run of packets. The laws are in proofs/Laws (one packet), proofs/Runs and proofs/Came (after any
// run a call has the words that came for it).
#![tactic(auto)]

ghost use Rattle.std.specs.Prelude.{◌≡◌};
ghost use Rattle.call.specs.Calls.{has_vector, is_long};

// Whether a span fits its call, and which word numbers are a call's.
mod span;

// The open calls: how many there are, the call of a key, whether the records are sound.
mod searching;

// The lent memory: a call's words, who still lacks a word, and the word given to all that do.
mod memory;

// A call opened by an address packet.
mod opening;

// A vector or message packet.
mod hearing;

// The end of a frame, and the records as they are at first.
mod ending;

pub use ending::{end_frame, fresh};
pub use hearing::hear;
pub use memory::{place, words};
pub use opening::open;
use packet::Address;

// 01: "At most 8 calls are open".
pub const MOST_CALLS: usize = 8;

// 01: "The span, 1 to 85 words in all".
pub const MOST_WORDS: usize = 85;

// The lent memory: 85 words for each of eight calls.
pub const MEMORY_WORDS: usize = 680;

// S8.7.2: the phases are 0 to 3, for A to D.
pub const LAST_PHASE: u32 = 3;

// What the lent memory holds for a word that has not come: a number of more than 21 bits. The memory is C's, a row of numbers.
pub const LACKING: u32 = 0x20_0000;

// Flags and kinds of the structs below are numbers, a refusal is a number beside the fields, and the records are a row with its size
// beside it: the C interface hands them out as they are, and the memory is fixed.

// One call. Its phase and the word number of its vector, which are its key; its address number, and whether that came
// as a priority address or is a long one. Once its vector has come `has_vector` is not 0, and then: the vector's kind
// and K, the word number b where the message words begin (a long call's second), how many words there are (0 where
// the vector brings none), and which area of the lent memory holds them.
#[repr(C)]
#[derive(Clone, Copy, Debug, PartialEq, Eq)]
pub struct Call {
    pub phase: u32,
    pub vector: u32,
    pub address: u32,
    pub priority: u32,
    pub long_address: u32,
    pub has_vector: u32,
    pub kind: u32,
    pub check: u32,
    pub start: u32,
    pub words: u32,
    pub area: u32,
}

impl Call {
    // Whether its vector has come.
    pub(crate) fn has_vector(&self) -> bool
        ensures { result ≡ has_vector self.now }
    {
        self.has_vector != 0
    }

    // Whether its address is a long one.
    pub(crate) fn is_long(&self) -> bool
        ensures { result ≡ is_long self.now }
    {
        self.long_address != 0
    }
}

// A record that holds no call.
pub const BLANK: Call = Call {
    phase: 0,
    vector: 0,
    address: 0,
    priority: 0,
    long_address: 0,
    has_vector: 0,
    kind: 0,
    check: 0,
    start: 0,
    words: 0,
    area: 0,
};

// The records. The first `size` of them are the open calls, in the order opened; a size of 8 or more says that all are.
#[repr(C)]
#[derive(Clone, Copy, Debug, PartialEq, Eq)]
pub struct Calls {
    pub size: usize,
    pub calls: [Call; MOST_CALLS],
}

// What is told of an address packet: 01's number; `opened`, 1 where it opened a call, with the call's place among the
// open ones (a tone-only address opens none); and what the packet says. What is not told is 0.
#[repr(C)]
#[derive(Clone, Copy, Debug, PartialEq, Eq)]
pub struct CallOpened {
    pub number: u32,
    pub opened: u32,
    pub call: usize,
    pub fields: Address,
}

// The answer to an address packet, and the records then.
#[repr(C)]
#[derive(Clone, Copy, Debug, PartialEq, Eq)]
pub struct CallOpening {
    pub answer: CallOpened,
    pub calls: Calls,
}

// What is told of a vector or message packet: 01's number; `is_vector`, 1 where it is the vector of a call, with the
// call's place among the open ones, the vector's kind and its K; and `completed`, the calls that it completed: bit i
// for the call at place i, so that the lowest bit is the one opened first. What is not told is 0.
#[repr(C)]
#[derive(Clone, Copy, Debug, PartialEq, Eq)]
pub struct CallHeard {
    pub number: u32,
    pub is_vector: u32,
    pub call: usize,
    pub kind: u32,
    pub check: u32,
    pub completed: u32,
}

// The answer to a vector or message packet, and the records then.
#[repr(C)]
#[derive(Clone, Copy, Debug, PartialEq, Eq)]
pub struct CallHearing {
    pub answer: CallHeard,
    pub calls: Calls,
}

// The answer to an end of frame: 01's number, the calls that were incomplete, in the order opened, and the records then.
#[repr(C)]
#[derive(Clone, Copy, Debug, PartialEq, Eq)]
pub struct FrameEnd {
    pub number: u32,
    pub incomplete: Calls,
    pub calls: Calls,
}
