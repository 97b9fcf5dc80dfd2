// An address as it is shown.
ghost use Rattle.std.specs.Prelude.{◌≡◌};
ghost use Rattle.capcode.specs.Text.{digits};

// An address in seven digits, its zeros with them.
pub fn seven_digits(address: u32) -> [u8; 7]
    ensures { result ≡ digits 7 address }
{
    let mut text = [0; 7];
    let mut rest = address;
    for place in (0..text.len()).rev() {
        text[place] = b'0' + (rest % 10) as u8;
        rest /= 10;
    }
    text
}
