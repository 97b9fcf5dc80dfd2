// The vector packets that the decoder sends, read into their fields (document 01, "Packets and the
// handshake"; S8.7.3 to S8.7.7). A packet of another ID is refused (7) and its fields read 0. Bits that a
// table marks x are not looked at.
//
// The types of vectors, short messages and instructions are numbers and no enums: C has them as numbers in these structs and
// their constants, and a `match` on the constants is as plain as one on variants that would name each of them again.
ghost use Rattle.std.specs.Prelude.{◌≡◌};
ghost use Rattle.laws.specs.Layouts.{fields_of};
ghost use Rattle.packet.specs.VectorTables.{numeric_vector, text_vector, short_vector, characters_vector, source_vector};
ghost use Rattle.packet.specs.VectorTables.{numbered_vector, instruction_vector, temporary_vector};
ghost use Rattle.packet.specs.Vectors.{is_numeric, is_text, as_numeric_span, as_text_span, span_of, as_characters, as_source};
ghost use Rattle.packet.specs.Vectors.{as_numbered, as_spare, short_of, short_message_of, as_temporary, as_reserved};
ghost use Rattle.packet.specs.Vectors.{instruction_of, vector_of, is_vector, vector_read};
ghost use Rattle.packet.specs.Reading.{unless};
ghost use Rattle.packet.specs.Tells.{vector_tells};
ghost use Rattle.refusal.specs.declared.Refusal.TheVariants as refusals;

use crate::Packet;
use crate::tables::Readable;
use refusal::Refusal;

// Where a vector's message words stand: K of a numeric one (Table 31), the number of words, and b. All 0 in
// a vector that has no message words.
#[repr(C)]
#[derive(Clone, Copy, Debug, Default, PartialEq, Eq)]
pub struct Span {
    pub check: u32,
    pub words: u32,
    pub start: u32,
}

// A short message or tone-only vector (Table 34): its message type t; with type 0 the codes of three numeric
// characters; with 1 and 2 the source S; with 2 the flag R and the message number N; with the spare type 3
// its twelve d bits.
#[repr(C)]
#[derive(Clone, Copy, Debug, Default, PartialEq, Eq)]
pub struct ShortMessage {
    pub kind: u32,
    pub first: u32,
    pub second: u32,
    pub third: u32,
    pub source: u32,
    pub retrieval: u32,
    pub message: u32,
    pub unread: u32,
}

// A short instruction (Table 38): its type i; with type 0 the address number of the temporary address and
// its frame; with a reserved type its eleven d bits.
#[repr(C)]
#[derive(Clone, Copy, Debug, Default, PartialEq, Eq)]
pub struct Instruction {
    pub kind: u32,
    pub address: u32,
    pub frame: u32,
    pub unread: u32,
}

// A vector packet: WN; e; p; the vector type V; and what that type brings, the rest being 0.
#[repr(C)]
#[derive(Clone, Copy, Debug, Default, PartialEq, Eq)]
pub struct Vector {
    pub word: u32,
    pub damaged: u32,
    pub phase: u32,
    pub kind: u32,
    pub span: Span,
    pub short_message: ShortMessage,
    pub instruction: Instruction,
}

// A number beside the fields and no Result: the C interface hands it out as it is.

// The fields of a vector packet, or its refusal.
#[repr(C)]
#[derive(Clone, Copy, Debug, PartialEq, Eq)]
pub struct VectorRead {
    pub number: u32,
    pub fields: Vector,
}

impl Vector {
    // The vector types V (Tables 32, 33 and 35, S8.7.7).
    pub const SECURE: u32 = 0;

    pub const INSTRUCTION: u32 = 1;

    pub const SHORT: u32 = 2;

    pub const STANDARD: u32 = 3;

    pub const SPECIAL: u32 = 4;

    pub const ALPHANUMERIC: u32 = 5;

    pub const HEX: u32 = 6;

    pub const NUMBERED: u32 = 7;

    // Whether a vector of this type has a numeric page (Table 32).
    pub fn is_numeric(kind: u32) -> bool
        ensures { result ≡ is_numeric kind }
    {
        matches!(kind, Vector::STANDARD | Vector::SPECIAL | Vector::NUMBERED)
    }

    // Whether a vector of this type has a text, or words that are handed over unread.
    pub fn is_text(kind: u32) -> bool
        ensures { result ≡ is_text kind }
    {
        matches!(kind, Vector::SECURE | Vector::ALPHANUMERIC | Vector::HEX)
    }
}

impl ShortMessage {
    // The message types t (Table 34).
    pub const CHARACTERS: u32 = 0;

    pub const SOURCE: u32 = 1;

    pub const NUMBERED: u32 = 2;

    pub const SPARE: u32 = 3;
}

impl Instruction {
    // The instruction type i (Table 38) that assigns a temporary address.
    pub const TEMPORARY: u32 = 0;
}

// The span of a numeric vector (Table 31).
fn numeric_span(bits: u32) -> Span
    ensures { result ≡ as_numeric_span (fields_of numeric_vector bits) }
{
    Span {
        check: (bits >> 10) % 16,
        words: (bits >> 7) % 8 + 1,
        start: bits % 0x80,
    }
}

// The span of a hex, alphanumeric or secure vector (Table 36).
fn text_span(bits: u32) -> Span
    ensures { result ≡ as_text_span (fields_of text_vector bits) }
{
    Span {
        words: (bits >> 7) % 0x80,
        start: bits % 0x80,
        ..Span::default()
    }
}

// The span of any vector.
fn span_of(bits: u32) -> Span
    ensures { result ≡ span_of bits }
{
    let kind = (bits >> 16) % 8;
    if Vector::is_numeric(kind) {
        numeric_span(bits)
    } else if Vector::is_text(kind) {
        text_span(bits)
    } else {
        Span::default()
    }
}

// Three numeric characters (Table 34, t 00).
fn characters_of(bits: u32) -> ShortMessage
    ensures { result ≡ as_characters (fields_of characters_vector bits) }
{
    ShortMessage {
        kind: ShortMessage::CHARACTERS,
        first: (bits >> 2) % 16,
        second: (bits >> 6) % 16,
        third: (bits >> 10) % 16,
        ..ShortMessage::default()
    }
}

// A source (Table 34, t 01).
fn source_of(bits: u32) -> ShortMessage
    ensures { result ≡ as_source (fields_of source_vector bits) }
{
    ShortMessage {
        kind: ShortMessage::SOURCE,
        source: (bits >> 2) % 8,
        ..ShortMessage::default()
    }
}

// A source and a message number (Table 34, t 10).
fn numbered_of(bits: u32) -> ShortMessage
    ensures { result ≡ as_numbered (fields_of numbered_vector bits) }
{
    ShortMessage {
        kind: ShortMessage::NUMBERED,
        source: (bits >> 2) % 8,
        retrieval: (bits >> 11) % 2,
        message: (bits >> 5) % 0x40,
        ..ShortMessage::default()
    }
}

// The spare type, whose d bits are not read (Table 34, t 11).
fn spare_of(bits: u32) -> ShortMessage
    ensures { result ≡ as_spare (fields_of short_vector bits) }
{
    ShortMessage {
        kind: ShortMessage::SPARE,
        unread: (bits >> 2) % 0x1000,
        ..ShortMessage::default()
    }
}

// The short message of a short message vector.
fn short_of(bits: u32) -> ShortMessage
    ensures { result ≡ short_of bits }
{
    match bits % 4 {
        ShortMessage::CHARACTERS => characters_of(bits),
        ShortMessage::SOURCE => source_of(bits),
        ShortMessage::NUMBERED => numbered_of(bits),
        _ => spare_of(bits),
    }
}

// The short message of any vector.
fn short_message_of(bits: u32) -> ShortMessage
    ensures { result ≡ short_message_of bits }
{
    match (bits >> 16) % 8 {
        Vector::SHORT => short_of(bits),
        _ => ShortMessage::default(),
    }
}

// A temporary address and its frame (Table 38, i 000).
fn temporary_of(bits: u32) -> Instruction
    ensures { result ≡ as_temporary (fields_of temporary_vector bits) }
{
    Instruction {
        kind: Instruction::TEMPORARY,
        address: (bits >> 10) % 16 + 16,
        frame: (bits >> 3) % 0x80,
        ..Instruction::default()
    }
}

// A reserved type, whose d bits are not read (Table 37).
fn reserved_of(bits: u32) -> Instruction
    ensures { result ≡ as_reserved (fields_of instruction_vector bits) }
{
    Instruction {
        kind: bits % 8,
        unread: (bits >> 3) % 0x800,
        ..Instruction::default()
    }
}

// The instruction of any vector.
fn instruction_of(bits: u32) -> Instruction
    ensures { result ≡ instruction_of bits }
{
    match (bits >> 16) % 8 {
        Vector::INSTRUCTION if bits % 8 == Instruction::TEMPORARY => temporary_of(bits),
        Vector::INSTRUCTION => reserved_of(bits),
        _ => Instruction::default(),
    }
}

// The vector of any 32 bits: word number, error mark, phase and type, and what that type brings.
fn vector_of(bits: u32) -> Vector
    ensures { result ≡ vector_of bits }
{
    Vector {
        word: (bits >> 24) % 0x80,
        damaged: (bits >> 23) % 2,
        phase: (bits >> 21) % 4,
        kind: (bits >> 16) % 8,
        span: span_of(bits),
        short_message: short_message_of(bits),
        instruction: instruction_of(bits),
    }
}

// A vector packet (S8.7.3).
impl Readable for Vector {
    ghost judged = { λ n. unless refusals.Packet (is_vector n) };

    ghost read = { vector_of };

    ghost told = { λ n. ((vector_read n).number, (vector_read n).fields) };

    fn judge(bits: u32) -> Result<(), Refusal> {
        match bits >> 24 {
            Packet::FIRST_VECTOR..=Packet::LAST_WORD => Ok(()),
            _ => Err(Refusal::Packet),
        }
    }

    fn of_bits(bits: u32) -> Vector {
        vector_of(bits)
    }

    ghost tells = { vector_tells };
}
