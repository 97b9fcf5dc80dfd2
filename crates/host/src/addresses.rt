// Addresses and their words, as C and Rust link them: numbers and structs by value. Every function takes any input.
// `number` is 0, or 01's number of the refusal; every other field is then 0.
ghost use Rattle.std.specs.Prelude.{◌≡◌, [], ◌∷◌};
ghost use Rattle.capcode.specs.Ranges.{class_of, told_classed};
ghost use Rattle.capcode.specs.Words.{words_of, address_of};
ghost use Rattle.host.specs.Flat.{class_from, words_from, address_from};

use capcode::{Class, Words};
use refusal::Refusal;

// The structs below have a number beside their fields and are no Result: the C interface hands them out as they are.

// The class of an address, 1 to 9 by 01's rows.
#[repr(C)]
#[derive(Clone, Copy)]
pub struct MortisevaneClass {
    pub number: u32,
    pub class: u32,
}

// One word or two; `second` is 0 where there is none.
#[repr(C)]
#[derive(Clone, Copy)]
pub struct MortisevaneWords {
    pub number: u32,
    pub count: u32,
    pub first: u32,
    pub second: u32,
}

// An address.
#[repr(C)]
#[derive(Clone, Copy)]
pub struct MortisevaneFound {
    pub number: u32,
    pub address: u64,
}

impl From<Result<Class, Refusal>> for MortisevaneClass {
    ghost use Rattle.capcode.specs.Ranges.{told_classed};
    ghost use Rattle.host.specs.Flat.{class_from};

    ghost from_gives = { λ answer told. told ≡ class_from (told_classed answer) };

    fn from(answer: Result<Class, Refusal>) -> MortisevaneClass {
        match answer {
            Ok(class) => MortisevaneClass {
                number: 0,
                class: class.number(),
            },
            Err(refusal) => MortisevaneClass {
                number: refusal.number(),
                class: 0,
            },
        }
    }
}

// The class of an address.
// Takes an address, any number.
// Answers its class, one of MORTISEVANE_CLASS_..
// Refuses 5.
#[unsafe(no_mangle)]
pub extern "C" fn mortisevane_address_class(address: u64) -> MortisevaneClass
    ensures { result ≡ class_from (told_classed (class_of address)) }
{
    capcode::class_of(address).into()
}

impl From<Result<Words, Refusal>> for MortisevaneWords {
    ghost use Rattle.capcode.specs.Words.{told_worded};
    ghost use Rattle.host.specs.Flat.{words_from};

    ghost from_gives = { λ answer told. told ≡ words_from (told_worded answer) };

    fn from(answer: Result<Words, Refusal>) -> MortisevaneWords {
        match answer {
            Ok(Words::One(word)) => MortisevaneWords {
                number: 0,
                count: 1,
                first: word,
                second: 0,
            },
            Ok(Words::Two(first, second)) => MortisevaneWords {
                number: 0,
                count: 2,
                first,
                second,
            },
            Err(refusal) => MortisevaneWords {
                number: refusal.number(),
                count: 0,
                first: 0,
                second: 0,
            },
        }
    }
}

// The words of an address, for the decoder's address packets (Table 24).
// Takes an address, any number.
// Answers how many words there are, 1 for a short address and 2 for a long one, and the words.
// Refuses 5.
#[unsafe(no_mangle)]
pub extern "C" fn mortisevane_address_words(address: u64) -> MortisevaneWords
    ensures { result ≡ words_from (words_of address) }
{
    capcode::words_of(address).into()
}

impl From<Result<u64, Refusal>> for MortisevaneFound {
    ghost use Rattle.capcode.specs.Words.{told_addressed};
    ghost use Rattle.host.specs.Flat.{address_from};

    ghost from_gives = { λ answer told. told ≡ address_from (told_addressed answer) };

    fn from(answer: Result<u64, Refusal>) -> MortisevaneFound {
        match answer {
            Ok(address) => MortisevaneFound { number: 0, address },
            Err(refusal) => MortisevaneFound {
                number: refusal.number(),
                address: 0,
            },
        }
    }
}

// The address that one word belongs to.
// Takes a word, any number.
// Answers the short address.
// Refuses 5: a word of no accepted address.
#[unsafe(no_mangle)]
pub extern "C" fn mortisevane_word_address(word: u32) -> MortisevaneFound
    ensures { result ≡ address_from (address_of (word ∷ [])) }
{
    capcode::word_address(word).into()
}

// The address that two words belong to.
// Takes the first and the second word, any numbers.
// Answers the long address.
// Refuses 5: words of no accepted address.
#[unsafe(no_mangle)]
pub extern "C" fn mortisevane_pair_address(first: u32, second: u32) -> MortisevaneFound
    ensures { result ≡ address_from (address_of (first ∷ second ∷ [])) }
{
    capcode::pair_address(first, second).into()
}
