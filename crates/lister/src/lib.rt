// The listing of CAPCODE lines (document 01, "The listing program"), by portions of any size: bytes of lines in, bytes of
// the listing out. The program that reads and writes is `listing`.
//
// What a listing is, of a whole input, is said in specs/Lines (the lines of the input, what each shows), specs/Verdicts (what
// stands after a text) and specs/Texts (the first line); what a portion does to it in specs/Portions and specs/Stands (where
// a listing stands inside a line). That the portions together give the listing, wherever the input was divided, is in
// proofs/Laws.
#![tactic(auto)]

ghost use Rattle.std.specs.Prelude.{◌≡◌, [], ◌∷◌, ◌++◌, length, take};
ghost use Rattle.lister.specs.Stands.{kept_of};
ghost use Rattle.lister.specs.Portions.{kept};

// The first line of a listing, and where it stands before the first byte.
mod starting;

// What every part of a listing is written with.
mod writing;

// What the listing shows after a text.
mod line_end;

// A portion of the input.
mod feeding;

// What a listing ends with: the end of a last line without a line feed.
mod closing;

pub use closing::{close, with_return};
pub use feeding::feed;
pub use starting::{start, title};
pub use writing::shown_byte;

// Where a listing stands inside a line: the line's first sixteen bytes (no correct text is longer than
// fifteen), how many of them came, and whether a carriage return is held back: it is dropped if the line
// ends right after it, and is a byte of the line if not. (The bytes are an array with a count beside it: there is no heap.)
#[derive(Clone, Copy, Debug, PartialEq, Eq)]
pub struct Lister {
    pub line: [u8; 16],
    pub count: usize,
    pub held: bool,
}

impl Lister {
    // The bytes that are kept of the line; a count over sixteen stands for sixteen.
    pub fn kept(&self) -> &[u8]
        ensures { result.now ≡ kept_of self.now }
    {
        &self.line[..self.count.min(16)]
    }

    // Keeps one byte more of the line, if it is one of the first sixteen.
    pub(crate) fn keep(&mut self, byte: u8)
        ensures kept { kept_of self.new ≡ kept (kept_of self.old ++ byte ∷ []) }
        ensures held { self.new.held ≡ self.old.held }
        ensures sixteen { length self.new.line ≡ 16 }
    {
        if self.count < 16 {
            self.line[self.count] = byte;
            self.count += 1;
        }
    }
}

// What was done with a portion: where the listing stands, how many bytes were taken and how many written.
#[derive(Clone, Copy, Debug, PartialEq, Eq)]
pub struct Fed {
    pub lister: Lister,
    pub taken: usize,
    pub written: usize,
}

// At most N bytes: so many, and zeros after them. (There is no heap for them.)
#[derive(Clone, Copy, Debug, PartialEq, Eq)]
pub struct Padded<const N: usize> {
    pub bytes: [u8; N],
    pub size: usize,
}

impl<const N: usize> Padded<N> {
    // The bytes, without the zeros after them; a size over N stands for N.
    pub fn as_slice(&self) -> &[u8]
        ensures { result.now ≡ take self.now.size self.now.bytes }
    {
        &self.bytes[..self.size.min(N)]
    }
}

// A byte as it is shown.
pub type Shown = Padded<4>;
