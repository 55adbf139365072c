// Page borders. P is any page size from 512 to 2^30: no power of two is assumed, so a border is found by division and never by a mask.
#![tactic(auto)]

ghost use Rattle.std.specs.Prelude.{◌≡◌, ◌+◌, ◌≤◌, ◌<◌, ◌^◌};
ghost use Rattle.pages.specs.Pages.{down, up, up_from, borderb, page_sizeb};

pub const LEAST_PAGE: u64 = 512;

pub const LARGEST_PAGE: u64 = 1073741824;

// Whether p is a page size that a file may have.
pub fn is_page_size(p: u64) -> bool
    ensures { result ≡ page_sizeb p }
{
    (LEAST_PAGE..=LARGEST_PAGE).contains(&p)
}

// Whether a is a multiple of p.
pub fn is_border(p: u64, a: u64) -> bool
    requires { 0 < p }
    ensures { result ≡ borderb p a }
{
    a % p == 0
}

// The last multiple of p not above a.
pub fn round_down(p: u64, a: u64) -> u64
    requires { 0 < p }
    ensures { result ≡ down p a }
{
    a / p * p
}

// The first multiple of p not below a.
pub fn round_up(p: u64, a: u64) -> u64
    requires { (0 < p) × (a + p ≤ 2 ^ 64) }
    ensures { result ≡ up p a }
{
    a.next_multiple_of(p)
}

// The bytes from a to the first multiple of p not below it, 0 to p - 1. Nothing is added to a, so any a may be asked.
pub fn up_from(p: u64, a: u64) -> u64
    requires { 0 < p }
    ensures { result ≡ up_from p a }
{
    let over = a % p;
    if over == 0 { 0 } else { p - over }
}
