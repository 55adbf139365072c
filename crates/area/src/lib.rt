// The calls for a program in C (include/filespace.h), over one area of bytes that it keeps: the state, and behind it the table. The answer is the
// number of document 01 and the requests, 0 for done. A refused call writes no byte. `area_c` exports them.
//
// An opening, and one function for all that can be asked of an open file, look at the area's length, and lend a local table to their twins in
// `area_calls`. These decide (`space`) on the state and the words that the bytes are, and only then write: the state, and the entries from the first
// that the change replaces up to the last one. An opening reads nothing, and writes all.
#![tactic(auto)]

ghost use Rattle.std.specs.Prelude.{◌≡◌, length, ◌*◌};
ghost use Rattle.area_calls.specs.Asking.{ToldIn};
ghost use Rattle.area_calls.specs.Calls.{area_said, both_said, opened_in, allocated_in, released_in, extended_in, shortened_in};
ghost use Rattle.pieces.specs.Words.{entry_words};
ghost use Rattle.table.specs.Sound.{largest_capacity};

use area_bytes::{is_area_length, table_words};
use area_calls::{Asked, Told};
use little::WORD_BYTES;
use pieces::ENTRY_WORDS;
use refusals::{DONE, NO_ADDRESS, NOT_SOUND, OUT_OF_RANGE, SLICE_TOO_SHORT};
use sound::LARGEST_CAPACITY;
use space::give::Way;

const MOST_WORDS: usize = LARGEST_CAPACITY * ENTRY_WORDS;

// The words of which a table is lent. The `ensures` gives the length, which lending a part of them needs.
fn zero_words() -> [u64; MOST_WORDS]
    ensures { largest_capacity * entry_words ≡ length result }
{
    [0; MOST_WORDS]
}

pub fn filespace_open(page: u64, limit: u64, area: &mut [u8]) -> u64
    ensures { area_said result area.new ≡ opened_in page limit area.old }
{
    let n = area.len();
    if !is_area_length(n) {
        return OUT_OF_RANGE;
    }
    let mut words = zero_words();
    let k = table_words(n);
    area_calls::open(page, limit, area, &mut words[..k])
}

// A call on the file in the area; bytes that are no area are refused as unsound.
fn call(area: &mut [u8], asked: Asked) -> Told
    ensures { ToldIn asked area.old result area.new }
{
    let n = area.len();
    if !is_area_length(n) {
        return Told {
            number: NOT_SOUND,
            address: NO_ADDRESS,
        };
    }
    let mut words = zero_words();
    let k = table_words(n);
    area_calls::call(area, &mut words[..k], asked)
}

// The address goes to the first 8 bytes of the result.
pub fn filespace_allocate(area: &mut [u8], code: u64, size: u64, res: &mut [u8]) -> u64
    ensures { both_said result area.new res.new ≡ allocated_in code size area.old res.old }
{
    if res.len() < WORD_BYTES {
        return SLICE_TOO_SHORT;
    }
    let told = call(area, Asked::Allocate(code, size));
    if told.number == DONE {
        little::put_part(told.address, res, 0, WORD_BYTES);
    }
    told.number
}

pub fn filespace_release(area: &mut [u8], address: u64, size: u64) -> u64
    ensures { area_said result area.new ≡ released_in address size area.old }
{
    let told = call(area, Asked::Release(address, size));
    told.number
}

pub fn filespace_extend(area: &mut [u8], address: u64, size: u64, by: u64) -> u64
    ensures { area_said result area.new ≡ extended_in address size by area.old }
{
    let told = call(area, Asked::Resize(address, size, Way::Longer, by));
    told.number
}

pub fn filespace_shorten(area: &mut [u8], address: u64, size: u64, by: u64) -> u64
    ensures { area_said result area.new ≡ shortened_in address size by area.old }
{
    let told = call(area, Asked::Resize(address, size, Way::Shorter, by));
    told.number
}
