// The calls over an area of a known length, with a table for its words. All but an opening are one function: state and words are read and tested, what
// is asked is decided on, and only then a byte is written.
#![tactic(auto)]

ghost use Rattle.std.specs.Prelude.{◌≡◌};
ghost use Rattle.area_calls.specs.Asking.{meant, Leads, ToldIn, unaddressed};
ghost use Rattle.area_calls.specs.Calls.{Lent, Holds, area_said, opened_in, left_by};
ghost use Rattle.settle.specs.Settle.{CarryFits};
ghost use Rattle.space.specs.Halves.{carried};
ghost use Rattle.space.specs.Outcomes.{SoundSpace};

use change::plan::Plan;
use refusals::{DONE, NO_ADDRESS, NOT_SOUND, Refusal, number_of};
use space::Space;
use space::give::Way;

// Nothing of the area is read.
pub fn open(page: u64, limit: u64, area: &mut [u8], table: &mut [u64]) -> u64
    requires { Lent area.old table.old }
    ensures { area_said result area.new ≡ opened_in page limit area.old }
{
    let opened = Space::open(page, limit, table);
    let number = number_of(opened.answer);
    if number == DONE {
        area_bytes::write(opened.space, table, area);
    }
    number
}

// The change that was decided on is carried out in the table, and written: the state, and the entries from the first that it replaces up to the last
// one, old or new.
fn carry_out(space: Space, table: &mut [u64], plan: Plan, area: &mut [u8])
    requires { Holds area.old space table.old × CarryFits space.count table.old plan }
    ensures { area.new ≡ left_by (carried space table.old plan) }
{
    let to = space.count.max(plan.count as u64) as usize;
    let next = space.carry_out(table, plan);
    area_bytes::put_state(next, area);
    area_bytes::put_entries(table, plan.from, to, area);
}

// What is asked of a file that was opened: a type's code and a size; a piece's address and size; a piece's, which way, and by how much.
#[derive(Clone, Copy)]
pub enum Asked {
    Allocate(u64, u64),
    Release(u64, u64),
    Resize(u64, u64, Way, u64),
}

// What is told: the number, and the address of a new piece, 2^64 - 1 where there is none. Two numbers, as the C interface hands out both of them.
#[derive(Clone, Copy)]
pub struct Told {
    pub number: u64,
    pub address: u64,
}

// Each call's own half decides: the address that is to be told and the change, or the number of the refusal. Nothing is written.
fn decide(space: Space, table: &[u64], asked: Asked) -> Result<(u64, Plan), u64>
    requires { SoundSpace space table.now }
    ensures { Leads space table.now (meant asked space table.now) result }
{
    match asked {
        Asked::Allocate(code, size) => space
            .decide_allocate(table, code, size)
            .map_err(|refusal| refusal.number()),
        Asked::Release(address, size) => without_address(space.decide_release(
            table, address, size,
        )),
        Asked::Resize(address, size, way, by) => {
            without_address(space.decide_resize(table, address, size, way, by))
        }
    }
}

// Only an allocation has an address to tell.
fn without_address<E: Refusal>(decided: Result<Plan, E>) -> Result<(u64, Plan), u64>
    ensures { result ≡ unaddressed E.by_number decided }
{
    decided
        .map(|plan| (NO_ADDRESS, plan))
        .map_err(|refusal| refusal.number())
}

// State and words are read and tested, and the change that is decided on is written, or the refusal told.
pub fn call(area: &mut [u8], table: &mut [u64], asked: Asked) -> Told
    requires { Lent area.old table.old }
    ensures { ToldIn asked area.old result area.new }
{
    let space = area_bytes::read(area, table);
    if !space.is_sound(table) {
        return Told {
            number: NOT_SOUND,
            address: NO_ADDRESS,
        };
    }
    match decide(space, table, asked) {
        Ok((address, plan)) => {
            carry_out(space, table, plan, area);
            Told {
                number: DONE,
                address,
            }
        }
        Err(number) => Told {
            number,
            address: NO_ADDRESS,
        },
    }
}
