// What a CAPCODE assigns: its phase and its base frame, or why it is refused (document 01, "CAPCODE text"; S8.6.5).
ghost use Rattle.std.specs.Prelude.{◌≡◌, ltb, IfOk};
ghost use Rattle.refusal.specs.Told.{Told};
ghost use Rattle.capcode.specs.Ranges.{accepted};
ghost use Rattle.capcode.specs.Assigned.{Fine, standard, framed, any_phase, all_phase, offset_of, phase_of, base_of};
ghost use Rattle.capcode.specs.Assigned.{fields_fit, asked, assigned, told_judged, told_assign};

use crate::{Assignment, Capcode};
use refusal::Refusal;

// A CAPCODE of which nothing is refused.
#[derive(Clone, Copy)]
pub(crate) struct FineCapcode {
    pub(crate) c: Capcode,
    pub ghost fine: { Fine c },
}

// A to L: phase and base frame come from the address.
pub(crate) fn is_standard(letter: u8) -> bool
    ensures { result ≡ standard letter }
{
    matches!(letter, b'A'..=b'L')
}

// U to Z: the base frame stands in the text.
pub(crate) fn is_framed(letter: u8) -> bool
    ensures { result ≡ framed letter }
{
    matches!(letter, b'U'..=b'Z')
}

fn is_any_phase(letter: u8) -> bool
    ensures { result ≡ any_phase letter }
{
    matches!(letter, b'E'..=b'H' | b'Y')
}

fn is_all_phase(letter: u8) -> bool
    ensures { result ≡ all_phase letter }
{
    matches!(letter, b'I'..=b'L' | b'Z')
}

// What is taken off the address before phase and base frame are counted (Table 25).
fn offset_of(letter: u8) -> u64
    ensures { result ≡ offset_of letter }
{
    if is_standard(letter) {
        ((letter - b'A') % 4) as u64
    } else {
        0
    }
}

fn is_below_offset(c: Capcode) -> bool
    ensures { result ≡ ltb c.address (offset_of c.letter) }
{
    c.address < offset_of(c.letter)
}

fn is_accepted(address: u64) -> bool
    ensures { result ≡ accepted address }
{
    crate::ranges::class_of(address).is_ok()
}

fn fields_fit(c: Capcode) -> bool
    ensures { result ≡ fields_fit c }
{
    if is_standard(c.letter) {
        (c.collapse <= 5) & (c.frame == 0)
    } else {
        (c.collapse <= 5) & (c.frame <= 127)
    }
}

// What is asked of every CAPCODE before it is used, in 01's order: the first refusal is the answer, and no more is asked.
#[tactic(auto, unfolding(crate::specs::Assigned::asked))]
pub(crate) fn judge(c: Capcode) -> Result<FineCapcode, Refusal>
    ensures told { (rest : Told) → told_judged result rest ≡ asked c rest }
    ensures same { IfOk result (λ fine. fine.c ≡ c) }
{
    let lettered = is_standard(c.letter) | is_framed(c.letter);
    if !lettered {
        return Err(Refusal::Text);
    }
    let all_phase = is_all_phase(c.letter);
    if all_phase {
        return Err(Refusal::Type);
    }
    let accepted = is_accepted(c.address);
    if !accepted {
        return Err(Refusal::Range);
    }
    let below = is_below_offset(c);
    if below {
        return Err(Refusal::Offset);
    }
    let fit = fields_fit(c);
    if !fit {
        return Err(Refusal::Packet);
    }
    Ok(FineCapcode { c })
}

impl FineCapcode {
    // Its phase.
    fn phase(self) -> u8
        ensures { result ≡ phase_of self.c }
    {
        let c = self.c;
        if is_any_phase(c.letter) {
            return 4;
        }
        if is_standard(c.letter) {
            ((c.address - offset_of(c.letter)) / 4 % 4) as u8
        } else {
            c.letter - b'U'
        }
    }

    // Its base frame.
    fn base(self) -> u8
        ensures { result ≡ base_of self.c }
    {
        let c = self.c;
        if is_standard(c.letter) {
            ((c.address - offset_of(c.letter)) / 16 % 128) as u8
        } else {
            c.frame as u8
        }
    }

    // Its phase and its base frame.
    fn assignment(self) -> Assignment
        ensures { (result.phase ≡ phase_of self.c) × (result.frame ≡ base_of self.c) }
    {
        Assignment {
            phase: self.phase(),
            frame: self.base(),
        }
    }
}

// The phase and the base frame of a CAPCODE (S8.6.5), or the first refusal.
pub fn assign(c: Capcode) -> Result<Assignment, Refusal>
    ensures { told_assign result ≡ assigned c }
{
    Ok(judge(c)?.assignment())
}
