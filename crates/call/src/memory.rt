// The words of calls in the lent memory (document 01, "Calls in a frame"). Each call that has its vector has an area of 85
// words, which holds its words in the order of the message, as far as they have come; a word that has not come is a number
// of more than 21 bits. Here is asked whether some call's span holds a word and whether some call still lacks it, and the
// word is given to all that do.
ghost use Rattle.std.specs.Prelude.{◌≡◌, get_or, set};
ghost use Rattle.refusal.specs.Told.{number_by, number_told};
ghost use Rattle.call.specs.Words.{place_of, words_of, is_complete, lacking, holds_word, word_place, lacks, completes, offered, given_to, finished};
ghost use Rattle.call.specs.Calls.{opens, if_so};
ghost use Rattle.call.specs.MemoryPieces.{asked};

use crate::{Call, Calls, LACKING, MOST_CALLS, MOST_WORDS};
use packet::Message;
use refusal::Refusal;

// Where the words of a call begin in the lent memory.
pub fn place(call: Call) -> usize
    ensures { result ≡ place_of call }
{
    call.area as usize % MOST_CALLS * MOST_WORDS
}

// The words of a call as a part of the lent memory, in the order of the message, as far as the memory goes.
pub fn words(memory: &[u32], call: Call) -> &[u32]
    ensures { result.now ≡ words_of call memory.now }
{
    let rest = &memory[place(call).min(memory.len())..];
    &rest[..(call.words as usize).min(rest.len())]
}

// What the memory holds at a place; past its end no word has come.
fn word_at(memory: &[u32], at: usize) -> u32
    ensures { result ≡ get_or memory.now at lacking }
{
    memory.get(at).copied().unwrap_or(LACKING)
}

impl Call {
    // 01: "A call is complete when each word has come".
    pub(crate) fn is_complete(&self, memory: &[u32]) -> bool
        ensures { result ≡ is_complete self.now memory.now }
    {
        self.has_vector() && sums::undamaged(words(memory, *self))
    }

    // Where a word goes in the memory, if it is of the call's phase and the call's span holds it.
    fn word_place(&self, message: &Message) -> Option<usize>
        ensures { result ≡ if_so (holds_word self.now message.now) (word_place self.now message.now) }
    {
        if self.phase != message.phase {
            return None;
        }
        let position = self.position(message.word)?;
        Some(place(*self) + position)
    }

    // Whether its span holds a word.
    pub(crate) fn holds(&self, message: &Message) -> bool
        ensures { result ≡ holds_word self.now message.now }
    {
        self.word_place(message).is_some()
    }

    // Where a word goes in the memory, if the call lacks it.
    fn lacked_place(&self, message: &Message, memory: &[u32]) -> Option<usize>
        ensures { result ≡ if_so (lacks self.now message.now memory.now) (word_place self.now message.now) }
    {
        let at = self.word_place(message)?;
        (LACKING <= word_at(memory, at)).then_some(at)
    }

    // Whether it lacks a word.
    fn lacks(&self, message: &Message, memory: &[u32]) -> bool
        ensures { result ≡ lacks self.now message.now memory.now }
    {
        self.lacked_place(message, memory).is_some()
    }
}

// 17 and 14 of 01's table: whether the span of some open call holds the word, and whether some call lacks it.
pub(crate) fn ask(calls: &Calls, message: &Message, memory: &[u32]) -> Result<(), Refusal>
    ensures { number_by result ≡ number_told (asked (opens calls.now) message.now memory.now) }
{
    let calls = calls.in_use();
    if calls.iter().any(|call| call.lacks(message, memory)) {
        return Ok(());
    }
    if calls.iter().any(|call| call.holds(message)) {
        return Err(Refusal::OutOfTurn);
    }
    Err(Refusal::NoCall)
}

// The memory with a word at a place; as it was where there is no such place.
// By its place and not by get_mut: the proof did not close, since after a None nothing says that the memory is as it was.
fn store(memory: &mut [u32], at: usize, word: u32)
    ensures { memory.new ≡ set memory.old at word }
{
    if at < memory.len() {
        memory[at] = word;
    }
}

// The word offered to one call, which takes it if it lacks it; whether that completes the call.
fn offer(call: &Call, message: &Message, memory: &mut [u32]) -> bool
    ensures told { result ≡ completes call.now message.now memory.old }
    ensures memory { memory.new ≡ offered call.now message.now memory.old }
{
    match call.lacked_place(message, memory) {
        Some(at) => {
            store(memory, at, message.bits);
            call.is_complete(memory)
        }
        None => false,
    }
}

// The word given to every open call that lacks it; the calls that it completes, bit i for the call at place i. Word and memory
// are no struct: the memory is lent to be read here and to be written there, so that it would be two.
pub(crate) fn give(calls: &Calls, message: &Message, memory: &mut [u32]) -> u32
    ensures told { result ≡ finished (opens calls.now) message.now memory.old }
    ensures memory { memory.new ≡ given_to (opens calls.now) message.now memory.old }
{
    let mut completed: u32 = 0;
    for call in calls.in_use().iter().rev() {
        completed = completed * 2 + offer(call, message, memory) as u32;
    }
    completed
}
