// What a request names: the codes of types and managers with their classes, and the class of a request by its size.
#![tactic(auto)]

ghost use Rattle.std.specs.Prelude.{◌≡◌, ◌||◌, eqb};
ghost use Rattle.requests.specs.Requests.{typeb, class_for, managerb, class_of_manager};

use pieces::Class;

// The codes are document 01's: a request may name any number, and has an answer for each, so they stay numbers.
pub const METADATA: u64 = 1;

pub const RAW: u64 = 2;

pub const LARGE: u64 = 3;

// Whether a number is the code of a type.
pub fn is_type(code: u64) -> bool
    ensures { result ≡ typeb code }
{
    code == METADATA || code == RAW
}

// The class of a piece of this size and type.
#[tactic(auto, unfolding(crate::specs::Requests::class_for))]
pub fn class_for(p: u64, code: u64, size: u64) -> Class
    ensures { result ≡ class_for p code size }
{
    if p <= size {
        return Class::Large;
    }
    if code == METADATA {
        return Class::SmallMetadata;
    }
    Class::SmallRaw
}

// Whether a number is the code of a manager.
pub fn is_manager(code: u64) -> bool
    ensures { result ≡ managerb code }
{
    code == METADATA || code == RAW || code == LARGE
}

// The class of a manager's sections.
#[tactic(auto, unfolding(crate::specs::Requests::class_of_manager))]
pub fn class_of_manager(manager: u64) -> Class
    ensures { result ≡ class_of_manager manager }
{
    match manager {
        METADATA => Class::SmallMetadata,
        RAW => Class::SmallRaw,
        _ => Class::Large,
    }
}

// Whether the size or the change is 0.
pub fn is_zero(size: u64, by: u64) -> bool
    ensures { result ≡ (eqb size 0 || eqb by 0) }
{
    size == 0 || by == 0
}
