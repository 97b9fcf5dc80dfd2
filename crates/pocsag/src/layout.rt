// The tables of the code, laid out once for a row of words.
ghost use Rattle.pocsag.specs.MendingPieces.{TablesRight};

// The wrong bits of each remainder, and the remainders of parts of a word.
#[derive(Clone, Copy)]
pub(crate) struct Tables<'a> {
    pub(crate) wrong: &'a [u16],
    pub(crate) parts: &'a [u16],
    ghost right: { TablesRight wrong.now parts.now },
}

// The tables that the library has.
pub(crate) fn laid_out() -> Tables<'static> {
    Tables {
        wrong: &crate::table::TABLE,
        parts: &crate::parts::PARTS,
    }
}
