// The File Space Info message, version 1: read out of the part of a header block that starts at the message, written into one, and the part
// of the block that follows it. No public call has a `requires`: what breaks a rule is refused.
#![tactic(auto)]

ghost use Rattle.std.specs.Prelude.{◌≡◌};
ghost use Rattle.message_fields.specs.Fields.{read_said};
ghost use Rattle.message.specs.Message.{reading, following, write_said, Wrote};

use message_bytes::{head_of, put_fields, with_addresses};
use message_fields::legal::is_legal;
pub use message_fields::{Fields, Refusal, number_of};
use message_fields::{LEAST_LENGTH, VERSION, VERSION_AT, follows_at, length_of};

// The fields of the message that the bytes start with, or why there is none. Without persistence the addresses are not there, and read as all
// ones; then the head is all that is asked for.
pub fn read(bytes: &[u8]) -> Result<Fields, Refusal>
    ensures { read_said result ≡ reading bytes.now }
{
    if bytes.len() < LEAST_LENGTH {
        return Err(Refusal::Short);
    }
    if bytes[VERSION_AT] != VERSION {
        return Err(Refusal::Version);
    }
    let head = head_of(bytes);
    if !is_legal(head) {
        return Err(Refusal::Field);
    }
    let needed = length_of(head);
    if bytes.len() < needed {
        return Err(Refusal::Short);
    }
    Ok(with_addresses(head, bytes))
}

// The caller's own slice from behind the message on, or all of it where there is no message.
pub fn rest(bytes: &[u8]) -> &[u8]
    ensures { result.now ≡ following bytes.now }
{
    let start = follows_at(read(bytes));
    &bytes[start..]
}

// Writes the message of the fields to the front of `out`.
pub fn write(fields: Fields, out: &mut [u8]) -> Result<(), Refusal>
    ensures { Wrote fields out.old (write_said result out.new) }
{
    if !is_legal(fields) {
        return Err(Refusal::Field);
    }
    let needed = length_of(fields);
    if out.len() < needed {
        return Err(Refusal::Short);
    }
    put_fields(fields, out);
    Ok(())
}
