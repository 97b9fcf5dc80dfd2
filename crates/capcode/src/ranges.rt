// The ranges of addresses that are accepted (S8.6.3, Table 22), and the class of an address.
ghost use Rattle.std.specs.Prelude.{◌≡◌};
ghost use Rattle.capcode.specs.Ranges.{holds, class_of};

use crate::Class;
use refusal::Refusal;

// A range of addresses, both ends in it, and its class.
#[derive(Clone, Copy)]
pub struct Row {
    pub from: u64,
    pub to: u64,
    pub class: Class,
}

// The accepted ranges, lowest first. No other line of code knows where a range ends.
const ROWS: [Row; 9] = [
    Row {
        from: 1,
        to: 1933312,
        class: Class::Short,
    },
    Row {
        from: 2009088,
        to: 2025471,
        class: Class::InformationService,
    },
    Row {
        from: 2025472,
        to: 2029567,
        class: Class::Network,
    },
    Row {
        from: 2029584,
        to: 2029599,
        class: Class::Operator,
    },
    Row {
        from: 2101249,
        to: 1075843072,
        class: Class::Set12,
    },
    Row {
        from: 1075843073,
        to: 2149584896,
        class: Class::Set13,
    },
    Row {
        from: 2149584897,
        to: 3223326720,
        class: Class::Set14,
    },
    Row {
        from: 3223326721,
        to: 3923326750,
        class: Class::Set23Country,
    },
    Row {
        from: 4280000001,
        to: 4291000000,
        class: Class::Set23InformationService,
    },
];

// Whether a row holds an address.
fn is_in_row(row: Row, address: u64) -> bool
    ensures { result ≡ holds row address }
{
    (row.from <= address) & (address <= row.to)
}

// The class of an address: that of the row that holds it. The table is halved, and each half again; one or two rows are
// then left. Every place in the table is a constant, so that the compiler makes comparisons of it.
// Written out, and no iterator over the rows: an iterator walks the table, and document 02, item 4 asks that it be halved.
#[tactic(auto, unfolding(crate::specs::Ranges::rows, crate::specs::Ranges::class_in, crate::specs::Ranges::class_of))]
pub fn class_of(address: u64) -> Result<Class, Refusal>
    ensures { result ≡ class_of address }
{
    let rows = ROWS;
    if address < rows[4].from {
        if address < rows[1].from {
            if is_in_row(rows[0], address) {
                return Ok(rows[0].class);
            }
            return Err(Refusal::Range);
        }
        if address <= rows[1].to {
            return Ok(rows[1].class);
        } else if is_in_row(rows[2], address) {
            return Ok(rows[2].class);
        } else if is_in_row(rows[3], address) {
            return Ok(rows[3].class);
        }
        return Err(Refusal::Range);
    }
    if address <= rows[4].to {
        return Ok(rows[4].class);
    }
    if address < rows[6].from {
        if is_in_row(rows[5], address) {
            return Ok(rows[5].class);
        }
        return Err(Refusal::Range);
    }
    if address <= rows[6].to {
        return Ok(rows[6].class);
    } else if is_in_row(rows[7], address) {
        return Ok(rows[7].class);
    } else if is_in_row(rows[8], address) {
        return Ok(rows[8].class);
    }
    Err(Refusal::Range)
}
