// Codewords as text: runs of eight hexadecimal digits between blanks, in any layout.
ghost use Rattle.std.specs.Prelude.{◌≡◌};
ghost use Rattle.laws.specs.Choice.{pick};
ghost use Rattle.pocsag_lister.specs.Tokens.{is_blank, is_hex, hex_value, shifted, counted, grown, wrong_run, run, finished, after_blank, taken_text};

use crate::{Taken, Token, WrongRun};
use refusal::Refusal;

// What is between two runs.
fn is_blank(byte: u8) -> bool
    ensures { result ≡ is_blank byte }
{
    matches!(byte, b' ' | b'\t' | b'\r' | b'\n')
}

// The number of a hexadecimal digit, if a character is one.
fn hex_value(byte: u8) -> Option<u32>
    ensures { result ≡ pick (is_hex byte) (Some (hex_value byte)) None }
{
    char::from(byte).to_digit(16)
}

// How many characters a run has after one more: 9 is for more than eight.
fn counted(count: u32) -> u32
    ensures { result ≡ counted count }
{
    if count < 9 { count + 1 } else { count }
}

// A run with one character more.
fn grown(token: Token, byte: u8) -> Token
    ensures { result ≡ grown token byte }
{
    let place = token.place.saturating_add(1);
    let count = counted(token.count);
    let at = if token.count == 0 {
        token.place
    } else {
        token.at
    };
    match hex_value(byte) {
        Some(digit) => Token {
            place,
            at,
            count,
            value: token.value % 0x1000_0000 * 16 + digit,
            ..token
        },
        None if token.number == 0 => Token {
            place,
            at: token.place,
            number: Refusal::Character.number(),
            count,
            ..token
        },
        None => Token {
            place,
            at,
            count,
            ..token
        },
    }
}

// A run that is no word.
fn wrong_run(token: Token, number: u32) -> Result<u32, WrongRun>
    ensures { result ≡ wrong_run token number }
{
    Err(WrongRun {
        number,
        line: token.line,
        place: token.at,
    })
}

// What a run of some characters is.
fn run(token: Token) -> Result<u32, WrongRun>
    ensures { result ≡ run token }
{
    match token.number {
        0 if token.count != 8 => wrong_run(token, Refusal::Size.number()),
        0 => Ok(token.value),
        number => wrong_run(token, number),
    }
}

// What a run is where it ends: nothing if it has no character.
pub(crate) fn finished(token: Token) -> Option<Result<u32, WrongRun>>
    ensures { result ≡ finished token }
{
    if token.count == 0 {
        return None;
    }
    Some(run(token))
}

// Where the reading is after a blank.
fn after_blank(token: Token, byte: u8) -> Token
    ensures { result ≡ after_blank token byte }
{
    let (line, place) = if byte == b'\n' {
        (token.line.saturating_add(1), 0)
    } else {
        (token.line, token.place.saturating_add(1))
    };
    Token {
        line,
        place,
        ..crate::start()
    }
}

// Takes a byte of a text: a blank ends the run before it, any other byte is a character of a run.
pub(crate) fn take_text(token: Token, byte: u8) -> Taken
    ensures { result ≡ taken_text token byte }
{
    if is_blank(byte) {
        return Taken {
            token: after_blank(token, byte),
            found: finished(token),
        };
    }
    Taken {
        token: grown(token, byte),
        found: None,
    }
}
