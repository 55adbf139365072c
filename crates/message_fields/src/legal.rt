// The rules that the fields of a message keep.
ghost use Rattle.std.specs.Prelude.{◌≡◌};
ghost use Rattle.message_fields.specs.Legal.{undefinedb, addressesb, legalb};

use crate::{Fields, TYPES};

const LAST_STRATEGY: u8 = 3;

const LAST_PERSIST: u8 = 1;

// The undefined address: all ones.
pub const UNDEFINED: u64 = 18446744073709551615;

// Whether the addresses are all undefined.
fn are_undefined(addresses: [u64; TYPES]) -> bool
    ensures { result ≡ undefinedb addresses }
{
    addresses.iter().all(|address| *address == UNDEFINED)
}

// Whether the addresses are such as the persist byte allows.
#[tactic(auto, unfolding(crate::specs::Legal::addressesb))]
fn addresses_keep(persist: u8, small: [u64; TYPES], large: [u64; TYPES]) -> bool
    ensures { result ≡ addressesb persist small large }
{
    persist != 0 || are_undefined(small) && are_undefined(large)
}

// Whether the fields keep every rule.
#[tactic(auto, unfolding(crate::specs::Legal::legalb))]
pub fn is_legal(fields: Fields) -> bool
    ensures { result ≡ legalb fields }
{
    fields.strategy <= LAST_STRATEGY
        && fields.persist <= LAST_PERSIST
        && pages::is_page_size(fields.page)
        && addresses_keep(fields.persist, fields.small, fields.large)
}
