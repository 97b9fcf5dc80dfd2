// The listing with a sentence below each refused line, for the label desk: its line number, a caret under the place where the
// text goes wrong, and how to mend it. CAPCODE lines come from standard input, and go to standard output as `listing` lists
// them. With the argument --summary=FILE the accepted CAPCODEs go to that file with their line numbers, and last how many lines
// there were and how many were refused: `./list --explain` makes the summary of that.
#![tactic(auto)]

ghost use Rattle.std.specs.Prelude.{◌≡◌, ◌≤◌, eqb, vec_len, IfOk, OnOk};
ghost use Rattle.std.specs.Fmt.{decimal};
ghost use Rattle.std.specs.Io.KnownBytes.{Appends};
ghost use Rattle.capcode.specs.Advice.{advice_of};
ghost use Rattle.capcode.specs.Reads.{read_of};
ghost use Rattle.lister.specs.Stands.{kept_of};
ghost use Rattle.explaining.specs.Remarks.{caret, letter_shown, sentence_of, is_refused, remark, entry, kept};

use anyhow::{Context, Result, bail};
use capcode::Fault;
use lister::Lister;
use std::alloc::Global;
use std::env;
use std::fs::File;
use std::io::{BufWriter, Read, Write, sink};

// How many bytes are read at a time.
const PORTION: usize = 4096;

// How many bytes of the listing are written at a time.
const ROOM: usize = 65536;

// What texts are written to, and its name in a message. The other programs have such functions of their own: each is one call
// of the library with a context, and one crate for them would be no plainer.
#[derive(Drop)]
struct Stream<W> {
    writer: W,
    name: &'static str,
}

impl<W: Write> Stream<W> {
    // Writes a text, or says why not.
    fn put(&mut self, text: &[u8]) -> Result<()>
        ensures { OnOk result (Appends (W.contents self.old.writer) (W.contents self.new.writer) text.now) }
    {
        self.writer.write_all(text).context(self.name)
    }

    // Writes a number in decimal digits.
    fn put_number(&mut self, n: u64) -> Result<()>
        ensures { OnOk result (Appends (W.contents self.old.writer) (W.contents self.new.writer) (decimal n)) }
    {
        write!(self.writer, "{n}").context(self.name)
    }

    // Writes the caret under a place of the line above.
    fn put_caret(&mut self, place: u8) -> Result<()>
        ensures { OnOk result (Appends (W.contents self.old.writer) (W.contents self.new.writer) (caret place)) }
    {
        let blanks = b"               ";
        self.put(&blanks[..(place as usize).min(15)])?;
        self.put(b"^ ")
    }

    // Writes the line number, and the sentence that says what is wrong with a text.
    fn put_remark(&mut self, text: &[u8], line: u64) -> Result<()>
        ensures { OnOk result (Appends (W.contents self.old.writer) (W.contents self.new.writer)
            (sentence_of line (advice_of (eqb line 1) text.now))) }
    {
        let advice = capcode::advise(text, line == 1);
        self.put(b"line ")?;
        self.put_number(line)?;
        self.put(b": ")?;
        self.put(refusal::in_words(advice.row()).as_bytes())?;
        self.put_letter(advice.letter())?;
        self.put(b"\n")
    }

    // Writes the letter that is to be written, if there is one.
    fn put_letter(&mut self, letter: Option<u8>) -> Result<()>
        ensures { OnOk result (Appends (W.contents self.old.writer) (W.contents self.new.writer) (letter_shown letter)) }
    {
        match letter {
            Some(letter) => self.put(&[letter]),
            None => Ok(()),
        }
    }

    // Writes an accepted CAPCODE and its line number for the summary.
    fn put_entry(&mut self, text: &[u8], number: u64) -> Result<()>
        ensures { OnOk result (Appends (W.contents self.old.writer) (W.contents self.new.writer) (entry text.now number)) }
    {
        self.put(text)?;
        self.put(b" ")?;
        self.put_number(number)?;
        self.put(b"\n")
    }

    // Writes all that was kept, or says why not.
    fn flush(&mut self) -> Result<()> {
        self.writer.flush().context(self.name)
    }
}

// Says what is wrong with the text of a line, if anything is, and whether anything is.
fn explain_line<W: Write, S: Write>(
    text: &[u8],
    line: u64,
    listing: &mut Stream<W>,
    summary: &mut Stream<S>,
) -> Result<bool>
    ensures refused { IfOk result (λ r. r ≡ is_refused (read_of text.now)) }
    ensures said { OnOk result (Appends (W.contents listing.old.writer) (W.contents listing.new.writer) (remark text.now line)) }
    ensures kept { OnOk result (Appends (S.contents summary.old.writer) (S.contents summary.new.writer) (kept text.now line)) }
{
    match capcode::read(text) {
        Ok(_) => {
            summary.put_entry(text, line)?;
            Ok(false)
        }
        Err(Fault::Wrong(_, place)) => {
            listing.put_caret(place)?;
            listing.put_remark(text, line)?;
            Ok(true)
        }
        Err(Fault::Refused(_)) => {
            listing.put_remark(text, line)?;
            Ok(true)
        }
    }
}

// How far an input is explained: where its listing stands, how many lines have ended and how many of them were refused; the
// buffer for a part of the listing, and where listing and summary go.
#[derive(Drop)]
struct Explaining<W, S> {
    lister: Lister,
    lines: u64,
    refused: u64,
    out: Vec<u8>,
    listing: Stream<W>,
    summary: Stream<S>,
    ghost room: { vec_len out ≡ 65536 },
}

impl<W: Write, S: Write> Explaining<W, S> {
    // Counts a line that has ended, and says what is wrong with its text: the bytes that are kept of it.
    fn explain_kept(&mut self, ended: Lister) -> Result<()>
        ensures said { OnOk result (Appends (W.contents self.old.listing.writer) (W.contents self.new.listing.writer)
            (remark (kept_of ended) self.new.lines)) }
        ensures kept { OnOk result (Appends (S.contents self.old.summary.writer) (S.contents self.new.summary.writer)
            (kept (kept_of ended) self.new.lines)) }
    {
        self.lines = self.lines.saturating_add(1);
        let text = ended.kept();
        let is_refused = explain_line(text, self.lines, &mut self.listing, &mut self.summary)?;
        if is_refused {
            self.refused = self.refused.saturating_add(1);
        }
        Ok(())
    }

    // Lists a part of a line, or its line feed. A part is so short that the listing of it has room.
    fn list_part(&mut self, part: &[u8]) -> Result<()> {
        let fed = lister::feed(self.lister, part, &mut self.out);
        self.listing.put(&self.out[..fed.written])?;
        if fed.taken < part.len() {
            bail!("standard output: the buffer is too short");
        }
        self.lister = fed.lister;
        Ok(())
    }

    // Ends a line at its line feed.
    fn end_line(&mut self) -> Result<()> {
        let ended = self.lister;
        self.list_part(b"\n")?;
        self.explain_kept(ended)
    }

    // Lists a portion line by line, with what is wrong with each: what no line feed ends is wanted after the loop.
    fn explain_portion(&mut self, input: &[u8]) -> Result<()> {
        let mut rest = input;
        while let Some(end) = rest.iter().position(|byte| *byte == b'\n') {
            self.list_part(&rest[..end])?;
            self.end_line()?;
            rest = &rest[end + 1..];
        }
        self.list_part(rest)
    }

    // Reads a portion and explains it, and writes all that is said of it. Says whether to read on: the end of the input is a
    // read of no bytes.
    fn explain_read<R: Read>(&mut self, reader: &mut R, input: &mut [u8]) -> Result<bool> {
        let n = reader.read(input).context("standard input")?;
        self.explain_portion(&input[..n])?;
        self.listing.flush()?;
        Ok(0 < n)
    }

    // Explains all that can be read. A loop has to end, and nothing says that an input does: the turns are counted, up to a
    // number that no run reaches. A byte is listed as eight bytes at most, so that a portion has room in the larger buffer.
    fn explain_input<R: Read>(&mut self, reader: &mut R, input: &mut [u8]) -> Result<()> {
        for _ in 0..u64::MAX {
            let goes_on = self.explain_read(reader, input)?;
            if !goes_on {
                break;
            }
        }
        Ok(())
    }

    // Writes the listing's first line, before anything is read.
    fn write_title(&mut self) -> Result<()> {
        let n = lister::title(&mut self.out).unwrap();
        self.listing.put(&self.out[..n])?;
        self.listing.flush()
    }

    // Ends the last line, if that has a byte and no line feed.
    fn explain_close(&mut self) -> Result<()> {
        let ended = lister::with_return(self.lister);
        if ended.count == 0 {
            return Ok(());
        }
        let n = lister::close(self.lister, &mut self.out).unwrap();
        self.listing.put(&self.out[..n])?;
        self.explain_kept(ended)
    }

    // Writes for the summary how many lines there were, and how many were refused.
    fn write_totals(&mut self) -> Result<()> {
        let lines = self.lines;
        let refused = self.refused;
        let summary = &mut self.summary;
        writeln!(summary.writer, "lines {lines} refused {refused}").context(summary.name)?;
        summary.flush()
    }
}

// Explains an input from its first byte to its end. Its buffers are made once, so that an input of any length takes the same
// memory.
fn explain<R: Read, W: Write + Drop, S: Write + Drop>(
    alloc: Global,
    reader: &mut R,
    listing: Stream<W>,
    summary: Stream<S>,
) -> Result<()> {
    let mut input = vec![in alloc; 0u8; PORTION]?;
    let mut explaining = Explaining {
        lister: lister::start(),
        lines: 0,
        refused: 0,
        out: vec![in alloc; 0u8; ROOM]?,
        listing,
        summary,
    };
    explaining.write_title()?;
    explaining.explain_input(reader, &mut input)?;
    explaining.explain_close()?;
    explaining.listing.flush()?;
    explaining.write_totals()
}

// The file for the summary, if an argument after the program's name names one. Other arguments are passed over.
fn ask(rt: &HostRuntime) -> Result<Option<String>> {
    let mut summary = None;
    for text in env::args(rt)?.skip(1) {
        if let Some(name) = text.strip_prefix("--summary=") {
            summary = Some(String::from_str(rt.alloc(), name)?);
        }
    }
    Ok(summary)
}

fn main(rt: HostRuntime) -> Result<()> {
    let asked = ask(&rt)?;
    let mut reader = rt.stdin();
    let listing = Stream {
        writer: BufWriter::new(rt.alloc(), rt.stdout())?,
        name: "standard output",
    };
    match asked {
        Some(name) => {
            let file = File::create(&rt, name.as_str()).context("the summary")?;
            let summary = Stream {
                writer: BufWriter::new(rt.alloc(), file)?,
                name: "the summary",
            };
            explain(rt.alloc(), &mut reader, listing, summary)
        }
        None => {
            let summary = Stream {
                writer: sink(),
                name: "the summary",
            };
            explain(rt.alloc(), &mut reader, listing, summary)
        }
    }
}
