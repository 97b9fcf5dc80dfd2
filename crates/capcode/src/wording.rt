// The one or two words that the decoder is given for an address, and the address that words belong to (S8.6.4,
// Table 24).
ghost use Rattle.std.specs.Prelude.{◌≡◌, ◌≤◌, ◌<◌, ◌^◌, ◌-◌, ◌+◌, ◌/◌, ◌%◌, [], ◌∷◌};
ghost use Rattle.capcode.specs.Words.{one_word, pair12, layout_of, words_as, FitsAs, words_of, listed, told_worded};
ghost use Rattle.capcode.specs.Words.{from_pair, address_of, told_addressed};

use crate::{Class, Words};
use refusal::Refusal;

// The four lines of Table 24.
#[derive(Clone, Copy)]
pub enum Layout {
    OneWord,
    Words12,
    Words13,
    Words23,
}

// The one word of a short address, an information service, a network or an operator.
fn one_word(address: u64) -> Words
    requires { address ≤ 0x1F7FFE }
    ensures { listed result ≡ one_word address }
{
    Words::One((address + 0x8000) as u32)
}

// The words of set 1-2. The upper bank runs downwards (Table 24, note 6).
fn two_words_12(address: u64) -> Words
    requires { (0x1F9001 ≤ address) × (address < 2 ^ 32) }
    ensures { listed result ≡ pair12 address }
{
    let d = address - 0x1F9001;
    Words::Two((1 + d % 0x8000) as u32, (0x1FFFFF - d / 0x8000) as u32)
}

// Two words that run upwards: from the first word of a set and from the second, by how far an address is from the set's first.
fn two_words_up(d: u64, first: u64, second: u64) -> Words
    requires { (d < 2 ^ 32) × (first < 2 ^ 21) × (second < 2 ^ 21) }
    ensures { listed result ≡ (first + d % 0x8000) ∷ (second + d / 0x8000) ∷ [] }
{
    Words::Two((first + d % 0x8000) as u32, (second + d / 0x8000) as u32)
}

// Which line of Table 24 a class goes by.
fn layout_of(class: Class) -> Layout
    ensures { result ≡ layout_of class }
{
    match class {
        Class::Short => Layout::OneWord,
        Class::InformationService => Layout::OneWord,
        Class::Network => Layout::OneWord,
        Class::Operator => Layout::OneWord,
        Class::Set12 => Layout::Words12,
        Class::Set13 => Layout::Words13,
        Class::Set14 => Layout::Words13,
        Class::Set23Country => Layout::Words23,
        Class::Set23InformationService => Layout::Words23,
    }
}

// The words of an address by a line of Table 24.
fn words_as(layout: Layout, address: u64) -> Words
    requires { FitsAs layout address }
    ensures { listed result ≡ words_as layout address }
{
    match layout {
        Layout::OneWord => one_word(address),
        Layout::Words12 => two_words_12(address),
        Layout::Words13 => two_words_up(address - 0x1F9001, 1, 0x1D8000),
        Layout::Words23 => two_words_up(address - 0x1F8FFF, 0x1F7FFF, 0x1C8000),
    }
}

// The words of an address.
#[tactic(auto, using(crate::proofs::Fits::class_fits), unfolding(crate::specs::Words::words_of))]
pub fn words_of(address: u64) -> Result<Words, Refusal>
    ensures { told_worded result ≡ words_of address }
{
    let class = crate::ranges::class_of(address)?;
    Ok(words_as(layout_of(class), address))
}

// The address that two words lead to, whether or not it is an accepted one. Words for which a difference would be below 0 are
// those of no address: they lead to an address whose words are others, and are refused.
#[tactic(auto, unfolding(crate::specs::Words::from_pair))]
fn from_pair(first: u32, second: u32) -> u64
    ensures { result ≡ from_pair first second }
{
    let one = first as u64;
    let two = second as u64;
    if 0x8000 < one {
        return 0x1F8FFF + two.saturating_sub(0x1C8000) * 0x8000 + one.saturating_sub(0x1F7FFF);
    }
    if 0x1F7FFF <= two {
        return 0x1F9001 + 0x1FFFFF_u64.saturating_sub(two) * 0x8000 + one.saturating_sub(1);
    }
    0x1F9001 + two.saturating_sub(0x1D8000) * 0x8000 + one.saturating_sub(1)
}

// The address that a single word belongs to: answered only where its words are this one again.
pub fn word_address(word: u32) -> Result<u64, Refusal>
    ensures { told_addressed result ≡ address_of (word ∷ []) }
{
    let address = (word as u64).saturating_sub(0x8000);
    let given = words_of(address);
    if given == Ok(Words::One(word)) {
        Ok(address)
    } else {
        Err(Refusal::Range)
    }
}

// The address that two words belong to: answered only where its words are these again.
pub fn pair_address(first: u32, second: u32) -> Result<u64, Refusal>
    ensures { told_addressed result ≡ address_of (first ∷ second ∷ []) }
{
    let address = from_pair(first, second);
    let given = words_of(address);
    if given == Ok(Words::Two(first, second)) {
        Ok(address)
    } else {
        Err(Refusal::Range)
    }
}
