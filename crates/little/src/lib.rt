// Numbers in bytes, the lowest byte first.
#![tactic(auto)]

ghost use Rattle.std.specs.Prelude.{◌≡◌, ◌-◌, ◌≤◌, ◌<◌, length};
ghost use Rattle.little.specs.Little.{byte_values, little, bytes_of, value_at, laid};

// How many values a byte has.
pub const BYTE_VALUES: u64 = 256;

// How many bytes a word has, a number of 64 bits.
pub const WORD_BYTES: usize = 8;

// The number that the bytes are, from the highest byte down.
pub fn get(bytes: &[u8]) -> u64
    requires { length bytes.now ≤ 8 }
    ensures { result ≡ little bytes.now }
{
    let mut value: u64 = 0;
    for byte in bytes.iter().rev() {
        value = u64::from(*byte) + BYTE_VALUES * value;
    }
    value
}

// Fills `out` with the lowest bytes of the value.
pub fn put(value: u64, out: &mut [u8])
    ensures { out.new ≡ bytes_of (length out.old) value }
{
    let mut rest = value;
    for byte in out.iter_mut() {
        *byte = (rest % BYTE_VALUES) as u8;
        rest /= BYTE_VALUES;
    }
}

// The number between two places.
pub fn get_part(bytes: &[u8], from: usize, to: usize) -> u64
    requires { (from ≤ to) × ((to ≤ length bytes.now) × (to - from ≤ 8)) }
    ensures { result ≡ value_at from to bytes.now }
{
    get(&bytes[from..to])
}

// Puts the value between two places.
pub fn put_part(value: u64, out: &mut [u8], from: usize, to: usize)
    requires { (from ≤ to) × (to ≤ length out.old) }
    ensures { out.new ≡ laid from to (bytes_of (to - from) value) out.old }
{
    put(value, &mut out[from..to]);
}
