// What the bytes of an input are read to: where the reading is at the start, and the word that is heard for a run.
ghost use Rattle.std.specs.Prelude.{◌≡◌};
ghost use Rattle.pocsag_lister.specs.Inputs.{start, word_heard};

use crate::{Token, WrongRun};

// The word that is heard for a run of characters that is none. It is beyond repair.
const NO_WORD: u32 = 0x0000_0001;

// Where the reading is before the first byte.
pub fn start() -> Token
    ensures { result ≡ start }
{
    Token {
        line: 1,
        place: 0,
        at: 0,
        number: 0,
        count: 0,
        value: 0,
    }
}

// The word that is heard for what was found: the word itself, or for a run of characters that is none one beyond repair.
pub fn word_heard(found: Result<u32, WrongRun>) -> u32
    ensures { result ≡ word_heard found }
{
    found.unwrap_or(NO_WORD)
}
