// The answers of no: 1 to 18 (document 01, "The eighteen answers of no"), each under the paper's word and with the paper's
// number, 19 to 21, into which 02, item 1 splits 3, and 25 and 26, which 02, item 5 adds for POCSAG pages.
#![tactic(auto)]

ghost use Rattle.std.specs.Prelude.{◌≡◌};
ghost use Rattle.refusal.specs.Told.{number_of, number_unless, kept};

// The sentences for people, in one table.
mod sentences;

pub use sentences::in_words;

// One refusal. When each is given is said by 01's table, and from 19 on by 02; the order in which several are asked is in
// specs/Told.
#[derive(Clone, Copy, Debug, PartialEq, Eq)]
pub enum Refusal {
    // A lent buffer is too short for what is to stand in it.
    Room = 1,
    // A register or a record that was handed back is outside its limits.
    State = 2,
    // A CAPCODE text that is not in the form, and the byte where it goes wrong is no digit; a letter that no CAPCODE has.
    Text = 3,
    // A CAPCODE of an all-phase letter, I to L or Z.
    Type = 4,
    // An address, or words, of no accepted range.
    Range = 5,
    // An address below the offset of its letter.
    Offset = 6,
    // A packet that is not to be sent or of another kind, a field too large, a bit set that is printed as 0.
    Packet = 7,
    // An address number over 31.
    Address = 8,
    // Too few or too many words, too many addresses, or a span outside the limits.
    Size = 9,
    // A word in error.
    Damaged = 10,
    // K is not the sum of the words.
    Checksum = 11,
    // No slot or no call is free.
    Full = 12,
    // A later fragment, or a drop, where no chain of its key is open.
    NoChain = 13,
    // A fragment that is not the next one; an address, a vector or a word of a call that has it.
    OutOfTurn = 14,
    // A text that is longer than the room for it.
    TooLong = 15,
    // The last fragment came, and the total is not that of the message.
    Signature = 16,
    // A vector or a word of no open call.
    NoCall = 17,
    // A character that is not in the set or is over 7FH, or ETX in a text to write.
    Character = 18,
    // A CAPCODE text that goes wrong at a digit before its letter.
    DigitBeforeLetter = 19,
    // A CAPCODE text that begins with a 4, which no CAPCODE does: no digit means 4.
    LeadingFour = 20,
    // A CAPCODE text that goes wrong at a digit after its letter, or stops too soon.
    DigitAfterLetter = 21,
    // A POCSAG word with more wrong bits than can be mended; a page with such a word in it.
    BeyondRepair = 25,
    // A POCSAG word that does not follow a sync word; a page whose end was not heard.
    NoSync = 26,
}

impl Refusal {
    // The number of a refusal: 1 to 18 are 01's, those from 19 on are 02's.
    pub fn number(self) -> u32
        ensures { result ≡ number_of self }
    {
        self as u32
    }

    // The number told: this refusal's unless the test holds. It stays as it is, since docs/PROMISES.md names it.
    pub fn unless(self, good: bool) -> u32
        ensures { result ≡ number_unless self good }
    {
        if good {
            return 0;
        }
        self.number()
    }
}

// A number told with an answer: itself, and 0 where it is not told, as the fields of the C interface are.
pub fn kept(good: bool, number: u32) -> u32
    ensures { result ≡ kept good number }
{
    if good { number } else { 0 }
}
