// Calls in a frame, as C and Rust link them. Every function takes any input, and its contract is that of the function it
// calls: `number` is 0, or 01's number of the refusal. The records go in and come back by value; the words lie in the
// lent memory of 680 words, where those of a call are `words` of them from its place on. A word that has not come is
// 200000H there, which is more than the 21 bits of a word. The caller keeps that memory and lends the same each time; it
// needs no initial value, since a vector that is taken sets each word of its call to 200000H. Calls stay open until
// mortisevane_call_end, which the caller calls at the end of each frame. The decoder tells that end, by EOF of a status
// packet, only in all frame mode (S8.8.3), which FAF of the all frame mode packet forces.
ghost use Rattle.std.specs.Prelude.{◌≡◌};
ghost use Rattle.call.specs.Calls.{most_calls, fresh};
ghost use Rattle.call.specs.Words.{place_of};
ghost use Rattle.call.specs.Answers.{open_of, opened_in, hear_of, heard_in, memory_after, end_of, ended_with, ended_in, as_opening, as_hearing, as_end};

use call::{Call, CallHearing, CallOpening, Calls, FrameEnd};
use packet::Packet;

// The records with no call open: after a reset, and after an end of frame. They are all zero.
// Takes nothing.
// Answers the records.
// Refuses nothing.
#[unsafe(no_mangle)]
pub extern "C" fn mortisevane_calls_fresh() -> Calls
    ensures { result ≡ fresh most_calls }
{
    call::fresh()
}

// An address packet, which opens a call.
// Takes the records, as they were answered last, and the packet.
// Answers what the packet says, the place of its call, and the records then. A tone-only address opens none.
// Refuses 2, 7, 8, 14, 12, the first that applies; the records are then as they were.
#[unsafe(no_mangle)]
pub extern "C" fn mortisevane_call_open(calls: Calls, bits: u32) -> CallOpening
    ensures { result ≡ as_opening (open_of calls bits) (opened_in calls bits) }
{
    call::open(calls, Packet { bits: bits })
}

// A vector or message packet.
// Takes the records, as they were answered last; the memory of the words, MORTISEVANE_CALL_WORDS or more, as it was left
// last; and the packet.
// Answers what became of it, with a bit for each call that is complete by it, and the records then.
// Refuses 2, 7, 10, then of a vector 14 where its call has one already, whatever its span, and 9 where its call is still
// without one and its span is bad, of a word 14 where every call that holds its place has it, of either 17 where it is no
// call's, and last 1. The memory is then as it was. A span refused by 9 closes its call.
#[unsafe(no_mangle)]
pub extern "C" fn mortisevane_call_hear(calls: Calls, memory: &mut [u32], bits: u32) -> CallHearing
    ensures told { result ≡ as_hearing (hear_of calls memory.old bits) (heard_in calls memory.old bits) }
    ensures memory { memory.new ≡ memory_after calls memory.old bits }
{
    call::hear(calls, memory, Packet { bits: bits })
}

// The end of a frame, which closes all calls.
// Takes the records, as they were answered last, and the memory of the words, as it was left last.
// Answers the records of the calls that were incomplete, in the order opened, and the records then.
// Refuses 2 and then 1; the records are then as they were.
#[unsafe(no_mangle)]
pub extern "C" fn mortisevane_call_end(calls: Calls, memory: &[u32]) -> FrameEnd
    ensures { result ≡ as_end (end_of calls memory.now) (ended_with calls memory.now) (ended_in calls memory.now) }
{
    call::end_frame(calls, memory)
}

// Where the words of a call begin in the lent memory.
// Takes the record of the call.
// Answers the place of its first word; the `words` of the record are from there on.
// Refuses nothing.
#[unsafe(no_mangle)]
pub extern "C" fn mortisevane_call_place(call: Call) -> usize
    ensures { result ≡ place_of call }
{
    call::place(call)
}
