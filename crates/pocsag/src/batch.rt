// One word: what it means at its place in the batch, and what becomes of the open page.
ghost use Rattle.std.specs.Prelude.{◌≡◌, ◌≤◌, ◌<◌, ◌^◌, length};
ghost use Rattle.refusal.specs.Told.{number_by};
ghost use Rattle.pocsag.specs.Mending.{mended_told};
ghost use Rattle.pocsag.specs.Batches.{turned, meaning_of, at_sync, in_batch, word_told, page_number, page_of, page_ended};
ghost use Rattle.pocsag.specs.Batches.{message_at, damaged_at, reader_after, is_whole, kept_bits, lent_after, step_told, step_by, stored_by};
ghost use Rattle.pocsag.specs.Batches.{closed_at, opened_at, faulty_at, no_page};

use crate::{Codeword, Meaning, Mended, PocsagPage, PocsagReader, Step};
use refusal::Refusal;

// How many words a batch has after its sync word.
const BATCH_WORDS: u32 = 16;

// How many message bits a word has.
pub(crate) const MESSAGE_BITS: u32 = 20;

// Twenty bits in the other order: from the lowest on each is put below those before it.
// A loop and not `reverse_bits`, which takes thirty-two such steps.
fn turned(bits: u32) -> u32
    requires { bits < 2 ^ 20 }
    ensures { result ≡ turned bits }
{
    let mut turned = 0;
    let mut rest = bits;
    for _ in 0..MESSAGE_BITS {
        turned = 2 * turned + rest % 2;
        rest /= 2;
    }
    turned
}

impl Meaning {
    // What a word means if a sync word must come next.
    fn at_sync(mended: Result<Mended, Refusal>) -> Meaning
        ensures { result ≡ at_sync (mended_told mended) }
    {
        match mended {
            Err(_) => Meaning::SyncDamaged,
            Ok(Mended { word, .. }) if word == Codeword::SYNC => Meaning::Sync,
            Ok(_) => Meaning::SyncMissing,
        }
    }

    // What a word means within a batch, of which so many words, with it, are still to come.
    fn in_batch(left: u32, mended: Result<Mended, Refusal>) -> Meaning
        requires { left ≤ 16 }
        ensures { result ≡ in_batch left (mended_told mended) }
    {
        let Ok(Mended { word, .. }) = mended else {
            return Meaning::Damaged;
        };
        if word == Codeword::SYNC {
            return Meaning::SyncEarly;
        }
        if word == Codeword::IDLE {
            return Meaning::Idle;
        }
        if 0x8000_0000 <= word {
            return Meaning::Message(turned((word >> 11) % 0x10_0000));
        }
        Meaning::Address(
            (word >> 13) % 0x4_0000 * 8 + (BATCH_WORDS - left) / 2,
            (word >> 11) % 4,
        )
    }

    // What a word means at its place.
    fn of(left: u32, mended: Result<Mended, Refusal>) -> Meaning
        ensures { result ≡ meaning_of left (mended_told mended) }
    {
        if (left == 0) | (BATCH_WORDS < left) {
            return Meaning::at_sync(mended);
        }
        Meaning::in_batch(left, mended)
    }

    // Whether a word is refused.
    fn told(self, is_open: u32) -> Result<(), Refusal>
        ensures { number_by result ≡ word_told is_open self }
    {
        match self {
            Meaning::SyncDamaged | Meaning::Damaged => Err(Refusal::BeyondRepair),
            Meaning::SyncMissing => Err(Refusal::NoSync),
            Meaning::Message(_) if is_open == 0 => Err(Refusal::NoCall),
            _ => Ok(()),
        }
    }
}

impl PocsagPage {
    // What is handed out if no page ends.
    pub(crate) fn none() -> PocsagPage
        ensures { result ≡ no_page }
    {
        PocsagPage {
            is_ended: 0,
            number: 0,
            address: 0,
            function: 0,
            words: 0,
            mended: 0,
        }
    }
}

// The number of a refusal, or 0.
pub(crate) fn number(told: Result<(), Refusal>) -> u32
    ensures { result ≡ number_by told }
{
    match told {
        Ok(()) => 0,
        Err(refusal) => refusal.number(),
    }
}

impl PocsagReader {
    // The reader with no page open.
    fn closed(left: u32) -> PocsagReader
        ensures { result ≡ closed_at left }
    {
        PocsagReader {
            left,
            is_open: 0,
            address: 0,
            function: 0,
            words: 0,
            mended: 0,
            fault: 0,
        }
    }

    // The reader after an address word.
    fn opened(left: u32, address: u32, function: u32, bits: u32) -> PocsagReader
        ensures { result ≡ opened_at left address function bits }
    {
        PocsagReader {
            is_open: 1,
            address,
            function,
            mended: bits,
            ..PocsagReader::closed(left)
        }
    }

    // The reader with the same page and a fault, or without one.
    fn with_fault(self, left: u32, fault: u32) -> PocsagReader
        ensures { result ≡ faulty_at left fault self }
    {
        PocsagReader {
            left,
            fault,
            ..self
        }
    }

    // Whether a page is open that has no fault.
    fn is_whole(self) -> bool
        ensures { result ≡ is_whole self }
    {
        (self.is_open != 0) & (self.fault == 0)
    }

    // The reader after a message word.
    fn with_message(self, left: u32, lent: usize, bits: u32) -> PocsagReader
        ensures { result ≡ message_at left lent bits self }
    {
        if !self.is_whole() {
            return self.with_fault(left, self.fault);
        }
        if lent <= self.words {
            return self.with_fault(left, Refusal::TooLong.number());
        }
        PocsagReader {
            left,
            words: self.words + 1,
            mended: self.mended.saturating_add(bits),
            ..self
        }
    }

    // The reader after a word that is beyond repair.
    fn damaged(self, left: u32) -> PocsagReader
        ensures { result ≡ damaged_at left self }
    {
        if !self.is_whole() {
            return self.with_fault(left, self.fault);
        }
        self.with_fault(left, Refusal::BeyondRepair.number())
    }

    // The reader after a word, in which so many bits were mended.
    fn after(self, lent: usize, bits: u32, meaning: Meaning) -> PocsagReader
        ensures { result ≡ reader_after lent bits self meaning }
    {
        let left = self.left.saturating_sub(1);
        match meaning {
            Meaning::Sync => self.with_fault(BATCH_WORDS, self.fault),
            Meaning::SyncDamaged | Meaning::SyncMissing => PocsagReader::closed(0),
            Meaning::SyncEarly => PocsagReader::closed(BATCH_WORDS),
            Meaning::Damaged => self.damaged(left),
            Meaning::Idle => PocsagReader::closed(left),
            Meaning::Address(address, function) => {
                PocsagReader::opened(left, address, function, bits)
            }
            Meaning::Message(_) => self.with_message(left, lent, bits),
        }
    }

    // Whether a page that ends is refused, whose end was heard or not.
    fn page_told(self, heard: bool, lent: usize) -> Result<(), Refusal>
        ensures { number_by result ≡ page_number heard lent self }
    {
        let too_long = Refusal::TooLong.number();
        if (self.fault != 0) & (self.fault != too_long) {
            return Err(Refusal::BeyondRepair);
        }
        if !heard {
            return Err(Refusal::NoSync);
        }
        if (self.fault == too_long) | (lent < self.words) {
            return Err(Refusal::TooLong);
        }
        Ok(())
    }

    // The open page, if there is one, as it ends.
    pub(crate) fn page(self, heard: bool, lent: usize) -> PocsagPage
        ensures { result ≡ page_of heard lent self }
    {
        if self.is_open == 0 {
            return PocsagPage::none();
        }
        PocsagPage {
            is_ended: 1,
            number: number(self.page_told(heard, lent)),
            address: self.address,
            function: self.function,
            words: self.words,
            mended: self.mended,
        }
    }

    // The page that ends at a word.
    fn page_ended(self, lent: usize, meaning: Meaning) -> PocsagPage
        ensures { result ≡ page_ended lent self meaning }
    {
        match meaning {
            Meaning::Idle | Meaning::Address(_, _) => self.page(true, lent),
            Meaning::SyncDamaged | Meaning::SyncMissing | Meaning::SyncEarly => {
                self.page(false, lent)
            }
            _ => PocsagPage::none(),
        }
    }

    // Stores the bits of a message word after those of its page, if the page is whole so far and there is room.
    fn keep(self, bits: u32, lent: &mut [u32])
        ensures { lent.new ≡ kept_bits self bits lent.old }
    {
        if self.is_whole() & (self.words < lent.len()) {
            lent[self.words] = bits;
        }
    }

    // What a word leaves in the lent memory.
    fn store(self, meaning: Meaning, lent: &mut [u32])
        ensures { lent.new ≡ lent_after self meaning lent.old }
    {
        if let Meaning::Message(bits) = meaning {
            self.keep(bits, lent);
        }
    }

    // One word, as it was mended: what it does, and what the lent memory then holds.
    // The page is asked for last: if the reader comes after it, an idle word takes half as many instructions again.
    pub(crate) fn step(self, mended: Result<Mended, Refusal>, lent: &mut [u32]) -> Step
        ensures told { step_told result ≡ step_by (length lent.old) self (mended_told mended) }
        ensures lent { lent.new ≡ stored_by self (mended_told mended) lent.old }
    {
        let meaning = Meaning::of(self.left, mended);
        let bits = mended.map_or(0, |mended| mended.bits);
        let room = lent.len();
        self.store(meaning, lent);
        Step {
            told: meaning.told(self.is_open),
            reader: self.after(room, bits, meaning),
            page: self.page_ended(room, meaning),
        }
    }
}
