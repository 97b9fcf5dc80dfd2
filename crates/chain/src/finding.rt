// Finding a chain among the slots (document 01, "A chain is known by .."): the slot of a key, the lowest-numbered free
// slot, and whether the records that were handed back are sound (its table, 2). The slots are lent: to hand them on by value
// would be to copy them.
ghost use Rattle.std.specs.Prelude.{◌≡◌};
ghost use Rattle.chain.specs.Chains.{is_of, is_sound, find, first_free, found, sound};

use crate::{Chain, LAST_ADDRESS, LAST_FRAGMENT, LAST_MESSAGE, WHOLE_SUM};
use fragment::MOST_CHARACTERS;

// Whether a slot has the open chain of a key.
pub(crate) fn is_of(chain: &Chain, address: u32, message_number: u32) -> bool
    ensures { result ≡ is_of address message_number chain.now }
{
    (chain.is_open != 0) & (chain.address == address) & (chain.message_number == message_number)
}

// 01's table, 2, of one slot.
fn is_sound(chain: &Chain) -> bool
    ensures { result ≡ is_sound chain.now }
{
    if chain.is_open != 0 {
        return (chain.address <= LAST_ADDRESS)
            & (chain.message_number <= LAST_MESSAGE)
            & (chain.next_fragment <= LAST_FRAGMENT)
            & (chain.sum <= WHOLE_SUM)
            & (chain.characters <= MOST_CHARACTERS);
    }
    (chain.address == 0)
        & (chain.message_number == 0)
        & (chain.next_fragment == 0)
        & (chain.sum == 0)
        & (chain.characters == 0)
}

// The slot of a key's open chain, if it has one.
pub(crate) fn find(slots: &[Chain], address: u32, message_number: u32) -> Option<usize>
    ensures { result ≡ found slots.now (find address message_number slots.now) }
{
    let of_key = |chain: &Chain| is_of(chain, address, message_number);
    slots.iter().position(of_key)
}

// 01: "the lowest-numbered free slot", if one is free. A loop that breaks with it is the form that 01 names for this place.
pub(crate) fn first_free(slots: &[Chain]) -> Option<usize>
    ensures { result ≡ found slots.now (first_free slots.now) }
{
    let mut free = None;
    for (slot, chain) in slots.iter().enumerate() {
        if chain.is_open == 0 {
            free = Some(slot);
            break;
        }
    }
    free
}

// 01's table, 2: whether each slot is sound and no two open chains are of one key.
pub(crate) fn sound(slots: &[Chain]) -> bool
    ensures { result ≡ sound slots.now }
{
    for (slot, chain) in slots.iter().enumerate() {
        if !is_sound(chain) {
            return false;
        }
        if (chain.is_open != 0)
            && find(&slots[slot + 1..], chain.address, chain.message_number).is_some()
        {
            return false;
        }
    }
    true
}
