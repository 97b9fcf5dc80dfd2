// A chain of fragments dropped at the caller's wish (document 01, "A chain is known by .."): the records go in and come
// back by value.
ghost use Rattle.std.specs.Prelude.{◌≡◌, ◌<◌, [], length, IfOk};
ghost use Rattle.refusal.specs.Told.{told_by};
ghost use Rattle.chain.specs.Chains.{find};
ghost use Rattle.chain.specs.Answers.{as_drop, drop_of, dropped_from};

use crate::{BLANK, Chain, ChainDrop, Chains, LAST_ADDRESS, LAST_MESSAGE};
use refusal::Refusal;

// The slot of the chain that is to be dropped; or 2, 7, 8 or 13 of 01's table, the first that applies.
fn dropped_slot(slots: &[Chain], address: u32, message_number: u32) -> Result<usize, Refusal>
    ensures told { told_by (λ slot. []) result ≡ drop_of slots.now address message_number }
    ensures there { IfOk result (λ slot. (slot ≡ find address message_number slots.now) × (slot < length slots.now)) }
{
    if !crate::finding::sound(slots) {
        return Err(Refusal::State);
    }
    if message_number > LAST_MESSAGE {
        return Err(Refusal::Packet);
    }
    if address > LAST_ADDRESS {
        return Err(Refusal::Address);
    }
    crate::finding::find(slots, address, message_number).ok_or(Refusal::NoChain)
}

// The chain of a key closed at the caller's wish. The C struct and not a Result: it hands the records back after a refusal
// too.
pub fn drop_chain(mut chains: Chains, address: u32, message_number: u32) -> ChainDrop
    ensures { result ≡ as_drop (drop_of chains.slots address message_number) (dropped_from chains.slots address message_number) }
{
    let number = match dropped_slot(&chains.slots, address, message_number) {
        Ok(slot) => {
            chains.slots[slot] = BLANK;
            0
        }
        Err(refusal) => refusal.number(),
    };
    ChainDrop { number, chains }
}
