// The check of a block of a log: two sums over the words of 16 bits before it.
#![tactic(auto)]

ghost use Rattle.std.specs.Prelude.{◌≡◌, ◌+◌, ◌≤◌, ◌<◌, length, take, drop};
ghost use Rattle.little.specs.Little.{little};
ghost use Rattle.log_check.specs.Check.{block_bytes, short_bytes, check_at, shorts_in, sums_of, checkb};

// The bytes of a block; where its check stands, and its second half.
pub const BLOCK_BYTES: usize = 512;

pub const CHECK_AT: usize = 508;

const SHORT_BYTES: usize = 2;

const SECOND_AT: usize = CHECK_AT + SHORT_BYTES;

const SHORTS: usize = CHECK_AT / SHORT_BYTES;

const SUM_VALUES: u64 = 65535;

#[derive(Clone, Copy, PartialEq, Eq)]
pub struct Sums {
    pub a: u64,
    pub b: u64,
}

// The word of 16 bits at a place.
fn short_at(bytes: &[u8], at: usize) -> u64
    requires { at + short_bytes ≤ length bytes.now }
    ensures is { result ≡ little (take short_bytes (drop at bytes.now)) }
    ensures below { result < 65536 }
{
    u64::from(u16::from_le_bytes([bytes[at], bytes[at + 1]]))
}

// Neither sum of so few words can leave 64 bits: so they are taken modulo 65,535 once, at the end.
fn sum_up(block: &[u8]) -> Sums
    requires { check_at ≤ length block.now }
    ensures { result ≡ sums_of (shorts_in block.now) }
{
    let mut a: u64 = 0;
    let mut b: u64 = 0;
    for i in 0..SHORTS {
        a += short_at(block, i * SHORT_BYTES);
        b += a;
    }
    Sums {
        a: a % SUM_VALUES,
        b: b % SUM_VALUES,
    }
}

// Whether a block holds the sums of its words.
pub fn is_checked(block: &[u8]) -> bool
    requires { length block.now ≡ block_bytes }
    ensures { result ≡ checkb block.now }
{
    let due = sum_up(block);
    let told = Sums {
        a: short_at(block, CHECK_AT),
        b: short_at(block, SECOND_AT),
    };
    told == due
}
