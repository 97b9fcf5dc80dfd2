// The listing of POCSAG pages (02, item 5): codewords from standard input, as text or as bytes, and the pages that they
// carry to standard output. What is refused is reported by its number and its place, and nothing is passed over. The options
// are those of `./pocsag`, whose help says what the lines mean. The parts that decide what is reported are in `pocsag` and
// `pocsag_lister`, with their contracts.
#![tactic(auto)]

ghost use Rattle.std.specs.Prelude.{Some};
ghost use Rattle.pocsag_listing.specs.Totals.{totals_shown};

use crate::pages::Memory;
use crate::reading::Reading;
use crate::telling::Listing;
use anyhow::{Context, Result};
use pocsag::{PocsagPage, PocsagReader, TextKind};
use pocsag_lister::{RawInput, TextInput};
use std::alloc::Global;
use std::fmt;
use std::fs::File;
use std::io::{BufWriter, Read, Write};

// What is written.
mod writing;

// The lines that say what is refused.
mod lines;

// A page as it is listed.
mod pages;

// What is reported of words.
mod telling;

// An input from its first byte to its end.
mod reading;

// What the program is asked for.
mod asking;

// How many bytes are read at a time, and how many are kept to be written.
const PORTION: usize = 65536;

// How many words are collected at a time.
const ROW: usize = 1024;

// A page has room for so many message words, which are so many characters or fewer.
const PAGE_WORDS: usize = 4096;

const PAGE_CHARACTERS: usize = 20480;

// How the input is listed: how it is read; the kind that all pages are read by, if one is chosen; and whether what is refused
// is said in words. Each of the two truth values is an argument, or that it is not there.
#[derive(Clone, Copy, Debug, PartialEq, Eq)]
pub struct Options {
    pub is_raw: bool,
    pub kind: Option<TextKind>,
    pub is_explained: bool,
}

// What is asked for: the options, and the file for the totals that an explained listing is summed up from, if one is named.
#[derive(Drop)]
pub struct Asked {
    pub options: Options,
    pub summary: Option<String>,
}

// What there was: how many words and pages, how many of them were refused, and how many bytes were left at the end.
#[derive(Clone, Copy, Debug, PartialEq, Eq, Default)]
pub struct Totals {
    pub words: u64,
    pub refused_words: u64,
    pub pages: u64,
    pub refused_pages: u64,
    pub left: u32,
}

impl Totals {
    // Counts a page that ended.
    fn count_page(&mut self, page: PocsagPage) {
        self.pages = self.pages.saturating_add(1);
        if page.number != 0 {
            self.refused_pages = self.refused_pages.saturating_add(1);
        }
    }
}

// The line of the summary.
impl fmt::Display for Totals {
    ghost output = { λ totals. Some (totals_shown totals) };

    fn fmt<W: fmt::Write>(&self, f: &mut fmt::Formatter<W>) -> fmt::Result {
        let Totals {
            words,
            refused_words,
            pages,
            refused_pages,
            left,
        } = *self;
        write!(
            f,
            "words {words} refused {refused_words} pages {pages} refused {refused_pages} left {left}"
        )
    }
}

// A listing before the first word, with all its memory. That is made once, so that an input of any length takes the same.
fn start<W: Write + Drop>(alloc: Global, options: Options, writer: W) -> Result<Listing<W>> {
    Ok(Listing {
        writer,
        options,
        memory: Memory {
            words: vec![in alloc; 0u32; PAGE_WORDS]?,
            text: vec![in alloc; 0u8; PAGE_CHARACTERS]?,
        },
        reader: PocsagReader {
            left: 0,
            is_open: 0,
            address: 0,
            function: 0,
            words: 0,
            mended: 0,
            fault: 0,
        },
        waiting: None,
        totals: Totals::default(),
    })
}

// Lists all that can be read, and answers what there was.
fn list<R: Read, W: Write>(
    alloc: Global,
    options: Options,
    reader: &mut R,
    writer: &mut W,
) -> Result<Totals> {
    let mut input = vec![in alloc; 0u8; PORTION]?;
    let row = vec![in alloc; 0u32; ROW]?;
    let listing = start(alloc, options, writer)?;
    let mut reading = Reading { listing, row };
    reading.listing.put_title()?;
    if options.is_raw {
        reading.list_all::<RawInput, R>(reader, &mut input)?;
    } else {
        reading.list_all::<TextInput, R>(reader, &mut input)?;
    }
    Ok(reading.listing.totals)
}

fn main(rt: HostRuntime) -> Result<()> {
    let Some(asked) = asking::options(&rt)? else {
        eprintln!(rt;
            "usage: pocsag_listing [--raw] [--numeric | --chinese | --text] [--explain] [--summary=FILE]"
        )?;
        return Ok(());
    };
    let mut writer = BufWriter::with_capacity(rt.alloc(), PORTION, rt.stdout())?;
    let listed = list(rt.alloc(), asked.options, &mut rt.stdin(), &mut writer);
    // Nothing more is written after an error: what is still kept is let go.
    let _ = writer.into_parts();
    let totals = listed?;
    if let Some(name) = asked.summary {
        let mut summary = File::create(&rt, name.as_str()).context("the summary")?;
        writeln!(summary, "{totals}").context("the summary")?;
    }
    Ok(())
}
