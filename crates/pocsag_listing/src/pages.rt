// A page as it is listed: the kind that its text is read by, and its line.
//
// A page has a number and not a Result, since `pocsag` answers the C interface's structs as they are.
ghost use Rattle.std.specs.Prelude.{◌≡◌, ◌++◌, vec_len, OnOk};
ghost use Rattle.std.specs.Io.KnownBytes.{Appends};
ghost use Rattle.capcode.specs.Text.{digits};
ghost use Rattle.pocsag_lister.specs.Pages.{kind_chosen};
ghost use Rattle.pocsag_listing.specs.Said.{kind_shown, before_fill, text_shown, head, fields, refused_line, read_as, text_as, page_line, page_remark, place, begun, explained_line, page_told};

use crate::Options;
use crate::writing::{first, put, put_meaning, put_shown};
use anyhow::{Context, Result};
use pocsag::{PocsagPage, TextKind, TextRead};
use pocsag_lister::Kind;
use refusal::Refusal;
use std::io::Write;

// The memory of a listing: the message words of the open page, and the text that is read from them. It is made once, and
// every page finds the same room, whatever was done with the pages before it.
#[derive(Drop)]
pub struct Memory {
    pub words: Vec<u32>,
    pub text: Vec<u8>,
    pub ghost room_for_words: { vec_len words ≡ 4096 },
    pub ghost room_for_text: { vec_len text ≡ 20480 },
}

impl Memory {
    // Reads the text of a page of so many words; if they are not there it is empty.
    fn read(&mut self, kind: TextKind, words: usize) -> TextRead
        ensures told { result ≡ read_as kind words self.old.words.items self.old.text.items }
        ensures text { self.new.text.items ≡ text_as kind words self.old.words.items self.old.text.items }
        ensures kept { self.new.words ≡ self.old.words }
    {
        pocsag::read_as(kind, first(&self.words, words), &mut self.text).unwrap_or(TextRead {
            characters: 0,
            fill_at_end: 0,
        })
    }
}

// Puts an address.
// No `{:07}`: of an address over 9999999 that shows more than the seven digits that are promised.
fn put_address<W: Write>(writer: &mut W, address: u32) -> Result<()>
    ensures { OnOk result (Appends (W.contents writer.old) (W.contents writer.new) (digits 7 address)) }
{
    put(writer, &pocsag_lister::seven_digits(address))
}

// Puts what a page is listed as.
// No Display of `Kind`: it would be this match in another crate, for this one place.
fn put_kind<W: Write>(writer: &mut W, kind: Kind) -> Result<()>
    ensures { OnOk result (Appends (W.contents writer.old) (W.contents writer.new) (kind_shown kind)) }
{
    match kind {
        Kind::Tone => put(writer, b" TONE"),
        Kind::Numeric => put(writer, b" NUMERIC"),
        Kind::Text => put(writer, b" TEXT"),
    }
}

// How many characters there are before the fill.
fn before_fill(read: TextRead) -> usize
    ensures { result ≡ before_fill read }
{
    read.characters.saturating_sub(read.fill_at_end)
}

// Puts a blank and so many characters of a text, if there are any.
// The whole text with a count, and no slice: the lines that are promised speak of both (`text_shown`, `begun`).
fn put_text<W: Write>(writer: &mut W, text: &[u8], count: usize) -> Result<()>
    ensures { OnOk result (Appends (W.contents writer.old) (W.contents writer.new) (text_shown text.now count)) }
{
    if count == 0 {
        return Ok(());
    }
    put(writer, b" ")?;
    put_shown(writer, first(text, count))
}

// Puts an address and a function.
fn put_head<W: Write>(writer: &mut W, page: PocsagPage) -> Result<()>
    ensures { OnOk result (Appends (W.contents writer.old) (W.contents writer.new) (head page)) }
{
    put_address(writer, page.address)?;
    write!(writer, " {}", page.function).context("standard output")
}

// Puts all that comes before the text of a page.
fn put_fields<W: Write>(writer: &mut W, page: PocsagPage, kind: TextKind, fill: usize) -> Result<()>
    ensures { OnOk result (Appends (W.contents writer.old) (W.contents writer.new) (fields page kind fill)) }
{
    put_head(writer, page)?;
    put_kind(writer, pocsag_lister::listed_kind(kind, page.words))?;
    write!(writer, " {} {fill}", page.mended).context("standard output")
}

// Puts the line of a page that is delivered.
fn put_page<W: Write>(
    writer: &mut W,
    page: PocsagPage,
    kind: TextKind,
    memory: &mut Memory,
) -> Result<()>
    ensures listed { OnOk result (Appends (W.contents writer.old) (W.contents writer.new) (page_line page kind memory.old.words.items memory.old.text.items)) }
    ensures kept { memory.new.words ≡ memory.old.words }
{
    let read = memory.read(kind, page.words);
    put_fields(writer, page, kind, read.fill_at_end)?;
    put_text(writer, &memory.text, before_fill(read))?;
    put(writer, b"\n")
}

// Puts the line of a page that is refused: its number, and the place of the message word at which it went wrong.
fn put_refused<W: Write>(writer: &mut W, page: PocsagPage) -> Result<()>
    ensures { OnOk result (Appends (W.contents writer.old) (W.contents writer.new) (refused_line page)) }
{
    put_head(writer, page)?;
    writeln!(writer, " REFUSED {} {}", page.number, page.words).context("standard output")
}

// What else the number of a page's refusal is for.
fn remark(number: u32) -> &'static str
    ensures { result.now ≡ page_remark number }
{
    if number == Refusal::NoSync.number() {
        return ", or the words ended";
    }
    ""
}

// Puts which page went wrong, and at which of its words.
fn put_place<W: Write>(writer: &mut W, page: PocsagPage) -> Result<()>
    ensures { OnOk result (Appends (W.contents writer.old) (W.contents writer.new) (place page)) }
{
    put(writer, b"page ")?;
    put_address(writer, page.address)?;
    write!(writer, ", message word {}", page.words).context("standard output")
}

// Puts what came of a page before it went wrong.
fn put_begun<W: Write>(writer: &mut W, text: &[u8], count: usize) -> Result<()>
    ensures { OnOk result (Appends (W.contents writer.old) (W.contents writer.new) (begun text.now count)) }
{
    if count == 0 {
        return put(writer, b"; no character came before that\n");
    }
    put(writer, b"; not the whole text:")?;
    put_text(writer, text, count)?;
    put(writer, b"\n")
}

// Puts what a refused page means, and the characters that came whole before it went wrong.
fn put_explained<W: Write>(
    writer: &mut W,
    page: PocsagPage,
    kind: TextKind,
    memory: &mut Memory,
) -> Result<()>
    ensures listed { OnOk result (Appends (W.contents writer.old) (W.contents writer.new) (explained_line page kind memory.old.words.items memory.old.text.items)) }
    ensures kept { memory.new.words ≡ memory.old.words }
{
    let read = memory.read(kind, page.words);
    put_place(writer, page)?;
    put_meaning(writer, page.number, remark(page.number))?;
    put_begun(writer, &memory.text, read.characters)
}

// Lists a page that ended.
pub(crate) fn put_ended<W: Write>(
    writer: &mut W,
    page: PocsagPage,
    options: Options,
    memory: &mut Memory,
) -> Result<()>
    ensures listed { OnOk result (Appends (W.contents writer.old) (W.contents writer.new) (page_told page options.is_explained (kind_chosen options.kind page.function) memory.old.words.items memory.old.text.items)) }
    ensures kept { memory.new.words ≡ memory.old.words }
{
    let kind = pocsag_lister::kind_chosen(options.kind, page.function);
    if page.number == 0 {
        return put_page(writer, page, kind, memory);
    }
    put_refused(writer, page)?;
    if options.is_explained {
        return put_explained(writer, page, kind, memory);
    }
    Ok(())
}
