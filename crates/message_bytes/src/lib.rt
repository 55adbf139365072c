// The fields of a message in bytes: each is read out of its part of a slice, and written into it.
#![tactic(auto)]

ghost use Rattle.std.specs.Prelude.{◌≡◌, ◌≤◌, ◌++◌, length, drop};
ghost use Rattle.little.specs.Little.{bytes_of_all};
ghost use Rattle.message_fields.specs.Fields.{length_of};
ghost use Rattle.message_fields.specs.Layout.{head_length, address_width, addresses_length};
ghost use Rattle.message_bytes.specs.Tail.{addresses_of};
ghost use Rattle.message_bytes.specs.Parts.{head_fields, fields_of, head_of, message_of};

use message_fields::legal::UNDEFINED;
use message_fields::{
    EOA_AT, FULL_LENGTH, Fields, HEAD_LENGTH, LARGE_AT, PAGE_AT, PAGE_END_AT, PERSIST_AT, SMALL_AT,
    STRATEGY_AT, THRESHOLD_AT, TYPES, VERSION, VERSION_AT,
};

// The addresses of one part, one for each type.
fn addresses(part: &[u8]) -> [u64; TYPES]
    requires { length part.now ≡ addresses_length }
    ensures { result ≡ addresses_of part.now }
{
    let mut found = [0u64; TYPES];
    words::get_words(part, &mut found);
    found
}

// The fields up to the EOA, with every address undefined.
pub fn head_of(bytes: &[u8]) -> Fields
    requires { head_length ≤ length bytes.now }
    ensures { result ≡ head_fields bytes.now }
{
    Fields {
        strategy: bytes[STRATEGY_AT],
        persist: bytes[PERSIST_AT],
        threshold: little::get_part(bytes, THRESHOLD_AT, PAGE_AT),
        page: little::get_part(bytes, PAGE_AT, PAGE_END_AT),
        page_end: little::get_part(bytes, PAGE_END_AT, EOA_AT) as u16,
        eoa: little::get_part(bytes, EOA_AT, HEAD_LENGTH),
        small: [UNDEFINED; TYPES],
        large: [UNDEFINED; TYPES],
    }
}

// The fields of a head with the addresses that stand behind it.
pub fn with_addresses(head: Fields, bytes: &[u8]) -> Fields
    requires { (head ≡ head_fields bytes.now) × (length_of head ≤ length bytes.now) }
    ensures { result ≡ fields_of bytes.now }
{
    if head.persist == 0 {
        return head;
    }
    let small = addresses(&bytes[SMALL_AT..LARGE_AT]);
    let large = addresses(&bytes[LARGE_AT..FULL_LENGTH]);
    Fields {
        small,
        large,
        ..head
    }
}

// Writes the addresses of one part.
fn put_addresses(addresses: [u64; TYPES], part: &mut [u8])
    requires { length part.old ≡ addresses_length }
    ensures { part.new ≡ bytes_of_all address_width addresses }
{
    words::put_words(&addresses, part);
}

// Writes the fields that stand before the addresses.
fn put_head(fields: Fields, head: &mut [u8])
    requires { length head.old ≡ head_length }
    ensures { head.new ≡ head_of fields }
{
    head[VERSION_AT] = VERSION;
    head[STRATEGY_AT] = fields.strategy;
    head[PERSIST_AT] = fields.persist;
    little::put_part(fields.threshold, head, THRESHOLD_AT, PAGE_AT);
    little::put_part(fields.page, head, PAGE_AT, PAGE_END_AT);
    little::put_part(u64::from(fields.page_end), head, PAGE_END_AT, EOA_AT);
    little::put_part(fields.eoa, head, EOA_AT, HEAD_LENGTH);
}

// Writes the message of the fields to the front of `out`.
pub fn put_fields(fields: Fields, out: &mut [u8])
    requires { length_of fields ≤ length out.old }
    ensures { out.new ≡ message_of fields ++ drop (length_of fields) out.old }
{
    put_head(fields, &mut out[VERSION_AT..HEAD_LENGTH]);
    if fields.persist == 0 {
        return;
    }
    let small = fields.small;
    put_addresses(small, &mut out[SMALL_AT..LARGE_AT]);
    let large = fields.large;
    put_addresses(large, &mut out[LARGE_AT..FULL_LENGTH]);
}
