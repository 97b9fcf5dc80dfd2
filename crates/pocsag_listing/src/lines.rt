// The lines that say what is refused: words, bytes that are left, and runs of characters that are no word.
ghost use Rattle.std.specs.Prelude.{◌≡◌, OnOk};
ghost use Rattle.std.specs.Io.KnownBytes.{Appends};
ghost use Rattle.pocsag_listing.specs.Said.{row_line, row_named, row_hint, row_meaning, row_told, characters_line, characters_named, characters_meaning, characters_told};

use crate::writing::put_meaning;
use anyhow::{Context, Result};
use pocsag_lister::WrongRun;
use std::io::Write;

// What is counted in a row.
#[derive(Clone, Copy, Debug, PartialEq, Eq)]
pub enum Unit {
    // Words of the input.
    Word,
    // Bytes of the input.
    Byte,
}

// A row of words or bytes that are refused with the same number: the first and the last.
// A number and not a Refusal: `pocsag::hear`, which C calls, answers it so.
#[derive(Clone, Copy, Debug, PartialEq, Eq)]
pub struct Row {
    pub unit: Unit,
    pub first: u64,
    pub last: u64,
    pub number: u32,
}

impl Row {
    // Whether a refused word is the next one of a row.
    pub(crate) fn goes_on(self, number: u32, word: u64) -> bool {
        self.number == number && self.last.saturating_add(1) == word
    }
}

// Puts the line of a row.
fn put_row_line<W: Write>(writer: &mut W, row: Row) -> Result<()>
    ensures { OnOk result (Appends (W.contents writer.old) (W.contents writer.new) (row_line row)) }
{
    let Row {
        unit,
        first,
        last,
        number,
    } = row;
    match (unit, first == last) {
        (Unit::Word, true) => writeln!(writer, "WORD {first} REFUSED {number}"),
        (Unit::Word, false) => writeln!(writer, "WORDS {first} TO {last} REFUSED {number}"),
        (Unit::Byte, true) => writeln!(writer, "BYTE {first} REFUSED {number}"),
        (Unit::Byte, false) => writeln!(writer, "BYTES {first} TO {last} REFUSED {number}"),
    }
    .context("standard output")
}

// Puts what a row is of.
fn put_row<W: Write>(writer: &mut W, row: Row) -> Result<()>
    ensures { OnOk result (Appends (W.contents writer.old) (W.contents writer.new) (row_named row)) }
{
    let Row {
        unit,
        first,
        last,
        ..
    } = row;
    match (unit, first == last) {
        (Unit::Word, true) => write!(writer, "word {first}"),
        (Unit::Word, false) => write!(writer, "words {first} to {last}"),
        (Unit::Byte, true) => write!(writer, "byte {first}"),
        (Unit::Byte, false) => write!(writer, "bytes {first} to {last}"),
    }
    .context("standard output")
}

// What there is to add to the meaning, and the end of the line.
fn hint(unit: Unit) -> &'static str
    ensures { result.now ≡ row_hint unit }
{
    match unit {
        Unit::Word => "\n",
        Unit::Byte => ": a word is four bytes\n",
    }
}

// Puts what the refusal of a row means.
fn put_row_meaning<W: Write>(writer: &mut W, row: Row) -> Result<()>
    ensures { OnOk result (Appends (W.contents writer.old) (W.contents writer.new) (row_meaning row)) }
{
    put_row(writer, row)?;
    put_meaning(writer, row.number, hint(row.unit))
}

// Reports a row, and what its refusal means if that is asked for.
pub(crate) fn report_row<W: Write>(writer: &mut W, row: Row, is_explained: bool) -> Result<()>
    ensures { OnOk result (Appends (W.contents writer.old) (W.contents writer.new) (row_told is_explained row)) }
{
    put_row_line(writer, row)?;
    if is_explained {
        return put_row_meaning(writer, row);
    }
    Ok(())
}

// Puts the line of a run of characters that is no word.
fn put_run_line<W: Write>(writer: &mut W, run: WrongRun) -> Result<()>
    ensures { OnOk result (Appends (W.contents writer.old) (W.contents writer.new) (characters_line run)) }
{
    let WrongRun {
        number,
        line,
        place,
    } = run;
    writeln!(writer, "LINE {line} REFUSED {number} {place}").context("standard output")
}

// Puts where it is.
fn put_run<W: Write>(writer: &mut W, run: WrongRun) -> Result<()>
    ensures { OnOk result (Appends (W.contents writer.old) (W.contents writer.new) (characters_named run)) }
{
    write!(writer, "line {}, place {}", run.line, run.place).context("standard output")
}

// Puts what its refusal means, and the word that is heard in its place.
fn put_run_meaning<W: Write>(writer: &mut W, run: WrongRun, word: u64) -> Result<()>
    ensures { OnOk result (Appends (W.contents writer.old) (W.contents writer.new) (characters_meaning run word)) }
{
    put_run(writer, run)?;
    put_meaning(writer, run.number, ": a word is eight hexadecimal digits")?;
    writeln!(writer, "; it stands as word {word}").context("standard output")
}

// Reports a run of characters that is no word, and what its refusal means if that is asked for.
pub(crate) fn report_run<W: Write>(
    writer: &mut W,
    run: WrongRun,
    word: u64,
    is_explained: bool,
) -> Result<()>
    ensures { OnOk result (Appends (W.contents writer.old) (W.contents writer.new) (characters_told is_explained run word)) }
{
    put_run_line(writer, run)?;
    if is_explained {
        return put_run_meaning(writer, run, word);
    }
    Ok(())
}
