// The spans of calls (document 01, "Calls in a frame"): whether a span fits its call, and which word numbers are a call's.
ghost use Rattle.std.specs.Prelude.{◌≡◌, ◌<◌, ◌^◌, length, IfSome};
ghost use Rattle.laws.specs.Lists.{place_in, up_from};
ghost use Rattle.call.specs.Calls.{fits, is_long, brings_words, spanned, numbers_of, found};
ghost use Rattle.call.specs.Words.{position};

use crate::{Call, MOST_WORDS};
use packet::{Packet, Vector};

// Tables 32 and 35: the vectors that bring message words.
pub(crate) fn brings_words(kind: u32) -> bool
    ensures { result ≡ brings_words kind }
{
    Vector::is_numeric(kind) | Vector::is_text(kind)
}

// The place of a word number among `words` of them from `start` on, if it is one of them.
fn place_from(start: u32, words: u32, word: u32) -> Option<usize>
    ensures told { result ≡ found (place_in (up_from start words) word) words }
    ensures small { IfSome result (λ place. place < words) }
{
    let place = word.checked_sub(start)?;
    (place < words).then_some(place as usize)
}

impl Call {
    // 01: the span must have 1 to 85 words, lie after the vector (a long call's rest after its first word) and end by word
    // 87. Where a long call has no rest, its start is not looked at.
    pub(crate) fn fits(&self, start: u32, words: u32) -> bool
        ensures { result ≡ fits (is_long self.now) self.now.vector start words }
    {
        let lead = self.is_long() as u64;
        // The last place before the rest: the vector, or a long call's first word.
        let before = self.vector as u64 + lead;
        let start = start as u64;
        let words = words as u64;
        (1 <= words)
            & (words <= MOST_WORDS as u64)
            & (before <= Packet::LAST_WORD as u64)
            & ((words == lead)
                | ((before < start) & (start + words <= Packet::LAST_WORD as u64 + 1 + lead)))
    }

    // 01's table, 2: whether the span of a call that has its vector is one for it. A span of no words is one for a vector
    // that brings none, and for no other.
    pub(crate) fn spanned(&self) -> bool
        ensures { result ≡ spanned self.now }
    {
        match self.words {
            0 => !brings_words(self.kind),
            words => self.fits(self.start, words),
        }
    }

    // Which of the call's message words a word number is: 0 for the first, which a long call has right after its vector.
    pub(crate) fn position(&self, word: u32) -> Option<usize>
        ensures told { result ≡ found (position self.now word) (length (numbers_of self.now)) }
        ensures small { IfSome result (λ place. place < 2 ^ 32) }
    {
        if !self.has_vector() | (self.words == 0) {
            return None;
        }
        if !self.is_long() {
            return place_from(self.start, self.words, word);
        }
        if word as u64 == self.vector as u64 + 1 {
            return Some(0);
        }
        let place = place_from(self.start, self.words - 1, word)?;
        Some(place + 1)
    }
}
