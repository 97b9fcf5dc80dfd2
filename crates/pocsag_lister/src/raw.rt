// Codewords as bytes: four to a word, the highest first.
ghost use Rattle.std.specs.Prelude.{◌≡◌, ◌<◌};
ghost use Rattle.pocsag_lister.specs.RawWords.{shifted_byte, begun, after_word, taken_raw, left_over};

use crate::{Left, Taken, Token};
use refusal::Refusal;

// The number of a word's bytes after one byte more.
fn shifted_byte(value: u32, byte: u8) -> u32
    ensures { result ≡ shifted_byte value byte }
{
    value % 0x100_0000 * 256 + byte as u32
}

// Where the reading is after one of the first three bytes of a word.
fn begun(token: Token, byte: u8) -> Token
    requires { token.count < 3 }
    ensures { result ≡ begun token byte }
{
    Token {
        place: token.place.saturating_add(1),
        at: if token.count == 0 {
            token.place
        } else {
            token.at
        },
        count: token.count + 1,
        value: shifted_byte(token.value, byte),
        ..token
    }
}

// Where the reading is after the fourth byte of a word.
fn after_word(token: Token) -> Token
    ensures { result ≡ after_word token }
{
    Token {
        place: token.place.saturating_add(1),
        at: 0,
        count: 0,
        value: 0,
        ..token
    }
}

// Takes a byte of an input of bytes: the fourth makes a word.
pub(crate) fn take_raw(token: Token, byte: u8) -> Taken
    ensures { result ≡ taken_raw token byte }
{
    if token.count < 3 {
        return Taken {
            token: begun(token, byte),
            found: None,
        };
    }
    Taken {
        token: after_word(token),
        found: Some(Ok(shifted_byte(token.value, byte))),
    }
}

// What is left where the input ends: one to three bytes are no word.
pub(crate) fn left_over(token: Token) -> Option<Left>
    ensures { result ≡ left_over token }
{
    if token.count == 0 {
        return None;
    }
    Some(Left::Bytes {
        refusal: Refusal::Size,
        place: token.at,
    })
}
