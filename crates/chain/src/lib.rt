// Chains of fragments (document 01, "A chain is known by .."): the fragments of a text joined by address number and message
// number, in eight slots. The records of the slots go in and come back by value, the texts lie in a lent buffer of 8,064
// bytes.
//
// Read specs/Chains (the records, when they are sound), specs/Steps (what one fragment makes of one chain, and of a row of
// records of any length) and specs/Answers (what is told, with the refusals in the table's order); specs/Runs is any run of
// fragments and drops. The laws are in proofs/Laws (one step), proofs/Texts (the lent bytes) and proofs/Runs.
#![tactic(auto)]

use refusal::Refusal;

// What a fragment makes of its own chain.
mod one_chain;

// The search among the slots: the slot of a key, the lowest free one, whether the records are sound.
mod finding;

// The step of a fragment.
mod joining;

// A chain dropped at the caller's wish.
mod dropping;

// The records after a reset, and a text as a part of the lent buffer.
mod lent;

pub use dropping::drop_chain;
pub use joining::step;
pub use lent::{fresh, text};
pub use one_chain::fate;

// 01: "There are 8 slots".
pub const SLOTS: usize = 8;

// 01: "address number (0 to 31, the last 16 temporary)".
pub const LAST_ADDRESS: u32 = 31;

// S8.8.7: N has six bits.
pub const LAST_MESSAGE: u32 = 63;

// 01: "F is 3 in a first fragment, then 0, 1, 2, 0 and so on".
pub const FIRST_FRAGMENT: u32 = 3;

pub const LAST_FRAGMENT: u32 = 2;

// S8.8.6: what signature and characters of a whole message make, modulo 128.
pub const WHOLE_SUM: u32 = 127;

// In the structs below with repr(C) flags and refusals are numbers, and values that are not told are 0: the C interface takes
// them and hands them out so.

// The record of one slot. Open is any number but 0; a closed slot's record is all zero. An open chain is known by its
// address number and its message number; it awaits the next F; `sum` is the sum modulo 128 of what came, the signature
// with it, and `characters` the length of its text so far.
#[repr(C)]
#[derive(Clone, Copy, Debug, PartialEq, Eq)]
pub struct Chain {
    pub is_open: u32,
    pub address: u32,
    pub message_number: u32,
    pub next_fragment: u32,
    pub sum: u32,
    pub characters: usize,
}

// A closed slot's record.
pub const BLANK: Chain = Chain {
    is_open: 0,
    address: 0,
    message_number: 0,
    next_fragment: 0,
    sum: 0,
    characters: 0,
};

// The records of the eight slots. The text of slot i begins at byte 1,008 times i of the lent buffer.
#[repr(C)]
#[derive(Clone, Copy, Debug, PartialEq, Eq)]
pub struct Chains {
    pub slots: [Chain; SLOTS],
}

// What is told of a fragment: 01's number; `lost`, 1 where it closed an open chain of its key whose text is not handed
// out (a first fragment the older one, a later fragment with 14, 15 or 16 its own); `begun`, 1 where it is a first
// fragment that was taken, with its R and M; `complete`, 1 where it hands out a text, with the slot, the place of the text in the
// lent buffer and its length. What is not told is 0.
#[repr(C)]
#[derive(Clone, Copy, Debug, PartialEq, Eq)]
pub struct ChainAnswer {
    pub number: u32,
    pub lost: u32,
    pub begun: u32,
    pub retrieval: u32,
    pub mail_drop: u32,
    pub complete: u32,
    pub slot: usize,
    pub place: usize,
    pub characters: usize,
}

// The answer to a fragment, and the records then.
#[repr(C)]
#[derive(Clone, Copy, Debug, PartialEq, Eq)]
pub struct ChainStep {
    pub answer: ChainAnswer,
    pub chains: Chains,
}

// The answer to a drop, and the records then.
#[repr(C)]
#[derive(Clone, Copy, Debug, PartialEq, Eq)]
pub struct ChainDrop {
    pub number: u32,
    pub chains: Chains,
}

// A chain that its fragment closes: the refusal, and the record that its slot has then.
#[derive(Clone, Copy, Debug, PartialEq, Eq)]
pub struct Lost {
    pub refusal: Refusal,
    pub chain: Chain,
}
