// What follows from the tables of the data sheet, written once for all packets: whether 32 bits are a packet of a table,
// how it is read into its fields, and how it is built from them. A packet names its table in an `impl`.
ghost use Rattle.std.specs.Prelude.{ℕ, List, ◌≡◌, Result, eqb};
ghost use Rattle.std.specs.Int.Bits.{bit_and};
ghost use Rattle.laws.specs.Layouts.{Layout, fields_of, shows, fit, packed};
ghost use Rattle.refusal.specs.declared.Refusal.{Refusal};
ghost use Rattle.refusal.specs.declared.Refusal.TheVariants as refusals;
ghost use Rattle.packet.specs.Fields.{built_by, number_by, fields_by};
ghost use Rattle.packet.specs.Reading.{unless, read_by, told_with, built_as};
ghost use Rattle.packet.specs.Tells.{one_told};

use crate::{Built, Packet};
use refusal::Refusal;

// A packet that is known by what its table prints: its ID, and every 0.
pub trait Table: Copy {
    // The table, and its fields as a struct.
    ghost layout: { Layout };

    ghost fields: { List ℕ → Self };

    // The bits that the table prints, all set.
    const MASK: u32;

    ghost MASK: { ℕ };

    // What the table prints there: the ID, since every other bit is a 0.
    const PRINTED: u32;

    ghost PRINTED: { ℕ };

    // The fields of any 32 bits, each at its place in the table.
    fn laid_out(bits: u32) -> Self
        ensures { result ≡ fields (fields_of layout bits) };

    // The two constants are the table's.
    ghost shown: { (n : ℕ) → eqb (bit_and n MASK) PRINTED ≡ shows layout n };
}

// A packet that is built from its fields.
pub trait Buildable: Table {
    // The fields as numbers, in the table's order.
    ghost values: { Self → List ℕ };

    // Whether each field fits its place.
    fn fits(self) -> bool
        ensures { result ≡ fit Self.layout (values self) };

    // The table's bits with each field moved to its place, also where one is too large for it.
    fn bits(self) -> u32
        ensures { result ≡ packed Self.layout (values self) };
}

// A packet that is read into its fields.
pub trait Readable: Copy {
    // The refusal of 32 bits, if they are refused.
    ghost judged: { ℕ → Result (Unit {0}) Refusal };

    // The fields of any 32 bits.
    ghost read: { ℕ → Self };

    // What C is told of any 32 bits: a number, and the fields.
    ghost told: { ℕ → ℕ × Self };

    // Refuses 32 bits that are no such packet.
    fn judge(bits: u32) -> Result<(), Refusal>
        ensures { result ≡ judged bits };

    // The fields of any 32 bits.
    fn of_bits(bits: u32) -> Self
        ensures { result ≡ read bits };

    // C is told the refusal's number, or 0; and the fields, or after a refusal those of no bits.
    ghost tells: { (n : ℕ) → told_with (read 0) (read_by (judged n) (read n)) ≡ told n };
}

// Refuses 32 bits with 7 (packet) if one that the table prints is another.
pub(crate) fn shown<T: Table>(bits: u32) -> Result<(), Refusal>
    ensures { result ≡ unless refusals.Packet (shows T.layout bits) }
{
    if bits & T::MASK == T::PRINTED {
        Ok(())
    } else {
        Err(Refusal::Packet)
    }
}

// A table alone says which packet it is.
impl<T: Table> Readable for T {
    ghost judged = { λ n. unless refusals.Packet (shows T.layout n) };

    ghost read = { λ n. T.fields (fields_of T.layout n) };

    ghost told = { λ n. (number_by T.layout n, T.fields (fields_by T.layout n)) };

    fn judge(bits: u32) -> Result<(), Refusal> {
        shown::<T>(bits)
    }

    fn of_bits(bits: u32) -> T {
        T::laid_out(bits)
    }

    ghost tells = { λ n. one_told (λ k. T.fields (fields_of T.layout k)) refusals.Packet (shows T.layout n) n };
}

// Reads a packet into its fields, or refuses another one.
#[inline]
pub fn read<T: Readable>(packet: Packet) -> Result<T, Refusal>
    ensures { result ≡ read_by (T.judged packet.bits) (T.read packet.bits) }
{
    T::judge(packet.bits)?;
    Ok(T::of_bits(packet.bits))
}

// Reads a packet for C: the number of the answer, and the fields, which are those of no bits after a refusal.
#[inline]
pub fn told<T: Readable>(packet: Packet) -> (u32, T)
    ensures { result ≡ T.told packet.bits }
{
    match read(packet) {
        Ok(fields) => (0, fields),
        Err(refusal) => (refusal.number(), T::of_bits(0)),
    }
}

impl Packet {
    // Builds a packet from its fields, or refuses one too large for its place with 7 (packet).
    #[tactic(auto, unfolding(crate::specs::Fields::built_of))]
    pub fn build<T: Buildable>(fields: T) -> Result<Packet, Refusal>
        ensures { built_as result ≡ built_by T.layout (T.values fields) }
    {
        if fields.fits() {
            Ok(Packet {
                bits: fields.bits(),
            })
        } else {
            Err(Refusal::Packet)
        }
    }
}

// What C is told of a packet that was built: the refusal's number, or 0; and its bits, or after a refusal none.
impl From<Result<Packet, Refusal>> for Built {
    ghost from_gives = { λ r b. b ≡ built_as r };

    fn from(built: Result<Packet, Refusal>) -> Built {
        match built {
            Ok(packet) => Built { number: 0, packet },
            Err(refusal) => Built {
                number: refusal.number(),
                packet: Packet { bits: 0 },
            },
        }
    }
}
