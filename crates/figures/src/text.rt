// Text and numbers laid into a lent buffer.
ghost use Rattle.std.specs.Prelude.{◌+◌, ◌≤◌, length};
ghost use Rattle.figures.specs.Laid.{Laid, number_bytes, NumberLaid};

// Lays text at a place, and answers where it ends.
pub fn lay(out: &mut [u8], at: usize, text: &[u8]) -> usize
    requires { at + length text.now ≤ length out.old }
    ensures { Laid out.old at text.now result out.new }
{
    let end = at + text.len();
    out[at..end].copy_from_slice(text);
    end
}

pub const NUMBER_BYTES: usize = 20;

// Lays a number's decimal digits at a place, and answers where they end.
pub fn lay_number(out: &mut [u8], at: usize, n: u64) -> usize
    requires { at + number_bytes ≤ length out.old }
    ensures { NumberLaid out.old at n result out.new }
{
    let mut digits = [0u8; NUMBER_BYTES];
    let k = io::decimal(n, &mut digits);
    lay(out, at, &digits[..k])
}
