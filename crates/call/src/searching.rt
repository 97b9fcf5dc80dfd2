// The open calls among the records (document 01, "Calls in a frame"): how many there are, the call of a key, and whether
// the records that were handed back are sound (its table, 2).
ghost use Rattle.std.specs.Prelude.{◌≡◌, ◌≤◌, length};
ghost use Rattle.call.specs.Calls.{opens, in_limits, find, found, sound, most_calls};
ghost use Rattle.call.specs.SearchingPieces.{key_of};

use crate::{Call, Calls, LAST_PHASE, MOST_CALLS};
use packet::Packet;

// The keys of calls within their limits, four phases of 88 word numbers, are numbers below 352: six times 64 bits.
const MARKS: usize = 6;

impl Calls {
    // How many calls are open.
    pub(crate) fn count(&self) -> usize
        ensures told { result ≡ length (opens self.now) }
        ensures small { result ≤ most_calls }
    {
        self.size.min(MOST_CALLS)
    }

    // The open calls, in the order opened.
    pub(crate) fn in_use(&self) -> &[Call]
        ensures told { result.now ≡ opens self.now }
        ensures small { length result.now ≤ most_calls }
    {
        &self.calls[..self.count()]
    }
}

// What a call is known by: its phase, and the word number of its vector.
#[derive(Clone, Copy, Debug, PartialEq, Eq)]
pub(crate) struct Key {
    pub phase: u32,
    pub vector: u32,
}

impl Call {
    // Its key.
    pub(crate) fn key(&self) -> Key
        ensures { result ≡ key_of self.now }
    {
        Key {
            phase: self.phase,
            vector: self.vector,
        }
    }

    // 01's table, 2, of one call.
    fn in_limits(&self) -> bool
        ensures { result ≡ in_limits self.now }
    {
        self.phase <= LAST_PHASE
            && self.vector <= Packet::LAST_WORD
            && (!self.has_vector() || self.spanned())
    }
}

// The place of the call of a key among the open ones, if it has one.
pub(crate) fn find(calls: &Calls, key: Key) -> Option<usize>
    ensures { result ≡ found (find key.phase key.vector (opens calls.now)) (length (opens calls.now)) }
{
    calls.in_use().iter().position(|call| call.key() == key)
}

// 01's table, 2: whether each open call is within its limits and no two are of one key. From the last call to the first the
// keys that were met are marked: a call whose key is marked already has the key of a later one. Each key has a bit
// of its own, which is marked by hand: a set of the library's would need a heap.
pub(crate) fn sound(calls: &Calls) -> bool
    ensures { result ≡ sound (opens calls.now) }
{
    let mut marks = [0u64; MARKS];
    for call in calls.in_use().iter().rev() {
        if !call.in_limits() {
            return false;
        }
        let key = call.phase * (Packet::LAST_WORD + 1) + call.vector;
        let at = (key / 64) as usize;
        let bit = key % 64;
        let mark = marks[at];
        if (mark >> bit) % 2 == 1 {
            return false;
        }
        marks[at] = mark | (1 << bit);
    }
    true
}
