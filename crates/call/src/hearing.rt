// A vector packet gives a call its span, and a message packet gives calls a word (document 01, "Calls in a frame"; S8.7.3
// to S8.7.7, S8.8.2). A bad span closes its call; the calls after it move one place down, so that the open calls stay in
// the order opened.
ghost use Rattle.std.specs.Prelude.{◌≡◌, ◌+◌, ◌^◌, ◌≤◌, ◌<◌, true, ltb, length, get_or, replicate};
ghost use Rattle.laws.specs.Choice.{pick};
ghost use Rattle.laws.specs.Lists.{put};
ghost use Rattle.refusal.specs.Told.{told_by};
ghost use Rattle.packet.specs.Vectors.{is_vector, vector_of};
ghost use Rattle.call.specs.Calls.{most_calls, blank, opens, brings_words, find, found};
ghost use Rattle.call.specs.Words.{lacking};
ghost use Rattle.call.specs.Steps.{vector_fits, with_vector, next_area, removed, without};
ghost use Rattle.call.specs.Answers.{vector_told, word_told, hear_of, heard_in, memory_after, as_heard, as_hearing};
ghost use Rattle.call.specs.HearingPieces.{vector_calls, vector_memory, word_memory, heard_values};

use crate::memory::{ask, give, place};
use crate::searching::{Key, find, sound};
use crate::span::brings_words;
use crate::{BLANK, Call, CallHeard, CallHearing, Calls, LACKING, MEMORY_WORDS, MOST_CALLS};
use packet::{Message, Packet, Readable, Vector};
use refusal::Refusal;

// What a packet is that is taken: the vector of a call, with the call's place, the vector's kind and K, and the calls that
// it completes; or a message word, and the calls that it completes.
#[derive(Clone, Copy, Debug, PartialEq, Eq)]
enum Heard {
    Vector {
        call: usize,
        kind: u32,
        check: u32,
        completed: u32,
    },
    Word {
        completed: u32,
    },
}

// The answer of which nothing is told.
const NOTHING: CallHeard = CallHeard {
    number: 0,
    is_vector: 0,
    call: 0,
    kind: 0,
    check: 0,
    completed: 0,
};

impl From<Result<Heard, Refusal>> for CallHeard {
    ghost from_gives = { λ heard answer. answer ≡ as_heard (told_by heard_values heard) };

    fn from(heard: Result<Heard, Refusal>) -> CallHeard {
        match heard {
            Ok(
                Heard::Vector {
                    call,
                    kind,
                    check,
                    completed,
                },
            ) => CallHeard {
                is_vector: 1,
                call,
                kind,
                check,
                completed,
                ..NOTHING
            },
            Ok(Heard::Word { completed }) => CallHeard {
                completed,
                ..NOTHING
            },
            Err(refusal) => CallHeard {
                number: refusal.number(),
                ..NOTHING
            },
        }
    }
}

// The area for the words of a call that gets its vector: how many calls have theirs.
fn next_area(calls: &Calls) -> u32
    ensures { result ≡ next_area (opens calls.now) }
{
    calls
        .in_use()
        .iter()
        .filter(|call| call.has_vector())
        .count() as u32
}

// Whether a vector brings no words, or a span that is one for its call.
fn vector_fits(call: &Call, vector: &Vector) -> bool
    ensures { result ≡ vector_fits call.now vector.now }
{
    !brings_words(vector.kind) | call.fits(vector.span.start, vector.span.words)
}

// A call whose vector has come, its words in an area.
fn with_vector(call: Call, vector: &Vector, area: u32) -> Call
    ensures { result ≡ with_vector call vector.now area }
{
    Call {
        has_vector: 1,
        kind: vector.kind,
        check: vector.span.check,
        start: vector.span.start,
        words: vector.span.words,
        area,
        ..call
    }
}

// No word of a call has come.
fn clear(memory: &mut [u32], place: usize, words: usize)
    requires { place + words ≤ length memory.old }
    ensures { memory.new ≡ put memory.old place (replicate words lacking) }
{
    memory[place..place + words].fill(LACKING);
}

// The row without the record at a place: those after it move one place down. A row with no such place stays as it is.
pub(crate) fn without(row: &mut [Call; MOST_CALLS], place: usize)
    ensures { row.new ≡ pick (ltb place most_calls) (without place row.old) row.old }
{
    if place < MOST_CALLS {
        row.copy_within(place + 1.., place);
        row[MOST_CALLS - 1] = BLANK;
    }
}

// An open call closed.
fn close(calls: &mut Calls, place: usize)
    requires { place < length (opens calls.old) }
    ensures { calls.new ≡ removed calls.old place }
{
    calls.size = calls.count() - 1;
    without(&mut calls.calls, place);
}

// The call that a vector completes: its own, where it brings no words.
fn completed_by(kind: u32, place: usize) -> u32
    requires { place < most_calls }
    ensures { result ≡ pick (brings_words kind) 0 (2 ^ place) }
{
    if brings_words(kind) {
        return 0;
    }
    1 << place
}

// A vector for the call at a place. Of 01's table a second vector, for a call that has one, is 14, whatever its span; a bad
// span, for a call still without its vector, is 9; and last comes 1. Else the call has its span and none of its words.
fn take_vector(
    calls: &mut Calls,
    memory: &mut [u32],
    packet: Packet,
    at: usize,
) -> Result<Heard, Refusal>
    requires bits_value { is_vector packet.bits ≡ true }
    requires place_in_bounds { at < length (opens calls.old) }
    ensures told { told_by heard_values result
        ≡ vector_told calls.old memory.old at (get_or (opens calls.old) at blank) (vector_of packet.bits) }
    ensures calls { calls.new ≡ vector_calls calls.old memory.old at (vector_of packet.bits) }
    ensures memory { memory.new ≡ vector_memory calls.old memory.old at (vector_of packet.bits) }
{
    let call = calls.calls[at];
    if call.has_vector() {
        return Err(Refusal::OutOfTurn);
    }
    let vector = Vector::of_bits(packet.bits);
    if !vector_fits(&call, &vector) {
        close(calls, at);
        return Err(Refusal::Size);
    }
    if memory.len() < MEMORY_WORDS {
        return Err(Refusal::Room);
    }
    let given = with_vector(call, &vector, next_area(calls));
    clear(memory, place(given), given.words as usize);
    calls.calls[at] = given;
    Ok(Heard::Vector {
        call: at,
        kind: given.kind,
        check: given.check,
        completed: completed_by(given.kind, at),
    })
}

// A message word: 17, 14 and 1 of 01's table, or the word given to the calls that lack it.
fn take_word(calls: &Calls, memory: &mut [u32], message: &Message) -> Result<Heard, Refusal>
    ensures told { told_by heard_values result ≡ word_told calls.now memory.old message.now }
    ensures memory { memory.new ≡ word_memory calls.now memory.old message.now }
{
    ask(calls, message, memory)?;
    if memory.len() < MEMORY_WORDS {
        return Err(Refusal::Room);
    }
    let completed = give(calls, message, memory);
    Ok(Heard::Word { completed })
}

// The place among the open calls of the one whose vector a packet is, whichever spans hold its word number; none if it is
// no call's.
fn vector_place(calls: &Calls, message: &Message) -> Option<usize>
    ensures { result ≡ found (find message.now.phase message.now.word (opens calls.now)) (length (opens calls.now)) }
{
    let key = Key {
        phase: message.phase,
        vector: message.word,
    };
    find(calls, key)
}

// A vector or message packet among the records, and the words in the lent memory. Vector places are looked at before
// spans.
fn hear_in(calls: &mut Calls, memory: &mut [u32], packet: Packet) -> Result<Heard, Refusal>
    ensures told { told_by heard_values result ≡ hear_of calls.old memory.old packet.bits }
    ensures calls { calls.new ≡ heard_in calls.old memory.old packet.bits }
    ensures memory { memory.new ≡ memory_after calls.old memory.old packet.bits }
{
    if !sound(calls) {
        return Err(Refusal::State);
    }
    let id = packet.bits >> 24;
    if !(Packet::FIRST_VECTOR..=Packet::LAST_WORD).contains(&id) {
        return Err(Refusal::Packet);
    }
    let message = packet::message_of(packet.bits);
    if message.damaged != 0 {
        return Err(Refusal::Damaged);
    }
    match vector_place(calls, &message) {
        Some(at) => take_vector(calls, memory, packet, at),
        None => take_word(calls, memory, &message),
    }
}

// A vector or message packet: the answer, the records then, and the words in the lent memory.
// A struct and not a Result: the C interface hands the records back beside the answer, after a refusal too.
pub fn hear(mut calls: Calls, memory: &mut [u32], packet: Packet) -> CallHearing
    ensures told { result ≡ as_hearing (hear_of calls memory.old packet.bits) (heard_in calls memory.old packet.bits) }
    ensures memory { memory.new ≡ memory_after calls memory.old packet.bits }
{
    let answer = hear_in(&mut calls, memory, packet);
    CallHearing {
        answer: CallHeard::from(answer),
        calls,
    }
}
