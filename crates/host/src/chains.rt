// Chains of fragments, as C and Rust link them. Every function takes any input, and its contract is that of the function
// it calls: `number` is 0, or 01's number of the refusal. The records go in and come back by value; the texts lie in the lent
// buffer of 8,064 bytes, where a text that is handed out is `characters` bytes from `place` on.
ghost use Rattle.std.specs.Prelude.{◌≡◌, length};
ghost use Rattle.chain.specs.Chains.{slot_count, fresh};
ghost use Rattle.chain.specs.Answers.{step_of, chains_after, buffer_after, drop_of, dropped_from, as_step, as_drop};

use chain::{ChainDrop, ChainStep, Chains};

// The records after a reset: no chain is open. They are all zero.
// Takes nothing.
// Answers the records.
// Refuses nothing.
#[unsafe(no_mangle)]
pub extern "C" fn mortisevane_chains_fresh() -> Chains
    ensures { result ≡ record { slots = fresh slot_count } }
{
    chain::fresh()
}

// A fragment for an address number: it begins a chain, goes on with one, or hands out a text.
// Takes the records, as they were answered last; the buffer of the texts, MORTISEVANE_CHAIN_BYTES or more, which is kept
// from fragment to fragment and may hold anything at first; the address number, 0 to 31; and the words of the fragment.
// Answers what became of it, and the records then. A text that is handed out is `characters` bytes of the buffer from
// `place` on, to be read before the next fragment.
// Refuses 1, 2, 8, 9, 10, 11, 13, 14, 15, 16, 12, the first that applies; the buffer is then as it was. After 14, 15 and
// 16 the key's chain is closed.
#[unsafe(no_mangle)]
pub extern "C" fn mortisevane_chain_step(
    chains: Chains,
    buffer: &mut [u8],
    address: u32,
    words: &[u32],
) -> ChainStep
    ensures told { result
        ≡ as_step (step_of (length buffer.old) chains.slots address words.now)
        (chains_after (length buffer.old) chains.slots address words.now) }
    ensures buffer { buffer.new ≡ buffer_after chains.slots address words.now buffer.old }
{
    chain::step(chains, buffer, address, words)
}

// The chain of an address number and a message number, closed at the caller's wish.
// Takes the records, the address number, 0 to 31, and the message number, 0 to 63.
// Answers the records then.
// Refuses 2, 7, 8, 13, the first that applies; the records are then as they were.
#[unsafe(no_mangle)]
pub extern "C" fn mortisevane_chain_drop(
    chains: Chains,
    address: u32,
    message_number: u32,
) -> ChainDrop
    ensures { result ≡ as_drop (drop_of chains.slots address message_number) (dropped_from chains.slots address message_number) }
{
    chain::drop_chain(chains, address, message_number)
}
