// The end of a frame (document 01, "Calls in a frame"; S8.8.2): the calls that were incomplete, and the records with no
// call open, as they also are at first.
ghost use Rattle.std.specs.Prelude.{◌≡◌};
ghost use Rattle.refusal.specs.Told.{number_by, number_told};
ghost use Rattle.call.specs.Calls.{most_calls, fresh, opens};
ghost use Rattle.call.specs.Steps.{listed, incomplete_in};
ghost use Rattle.call.specs.Answers.{end_of, ended_with, ended_in, as_end};

use crate::opening::add;
use crate::searching::sound;
use crate::{BLANK, Calls, FrameEnd, MEMORY_WORDS, MOST_CALLS};
use refusal::Refusal;

// The records with no call open.
pub fn fresh() -> Calls
    ensures { result ≡ fresh most_calls }
{
    Calls {
        size: 0,
        calls: [BLANK; MOST_CALLS],
    }
}

// Lists the open calls that are incomplete, in the order opened. The list is lent, since one that is returned is copied.
fn incomplete(calls: &Calls, memory: &[u32], list: &mut Calls)
    requires { list.old ≡ fresh most_calls }
    ensures { list.new ≡ listed most_calls (incomplete_in (opens calls.now) memory.now) }
{
    for call in calls.in_use() {
        if !call.is_complete(memory) {
            add(list, *call);
        }
    }
}

// 2 and 1 of 01's table.
fn may_end(calls: &Calls, memory: &[u32]) -> Result<(), Refusal>
    ensures { number_by result ≡ number_told (end_of calls.now memory.now) }
{
    if !sound(calls) {
        return Err(Refusal::State);
    }
    if memory.len() < MEMORY_WORDS {
        return Err(Refusal::Room);
    }
    Ok(())
}

// The end of a frame: the calls that were incomplete, and the records with no call open.
// A struct and not a Result: the C interface hands the records back beside the answer, after a refusal too.
pub fn end_frame(mut calls: Calls, memory: &[u32]) -> FrameEnd
    ensures { result ≡ as_end (end_of calls memory.now) (ended_with calls memory.now) (ended_in calls memory.now) }
{
    let mut number = 0;
    let mut list = fresh();
    match may_end(&calls, memory) {
        Ok(()) => {
            incomplete(&calls, memory, &mut list);
            calls = fresh();
        }
        Err(refusal) => number = refusal.number(),
    }
    FrameEnd {
        number,
        incomplete: list,
        calls,
    }
}
