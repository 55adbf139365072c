// The calls of `summary` for whoever keeps the summary as a value, as a program does: each lends a local summary to one call, and hands it back
// beside the answer. The parameters and results are plain here. All bodies have one shape, and need no proof file.
#![tactic(auto)]

ghost use Rattle.std.specs.Prelude.{◌≡◌};
ghost use Rattle.by_value.specs.Told.{told, fresh_said};
ghost use Rattle.by_value.specs.With.{opened_with, allocated_with, released_with, extended_with, shortened_with, freshened};
ghost use Rattle.space.specs.Opening.{default_page, default_limit};
ghost use Rattle.space.specs.Said.{open_said, allocate_said, release_said, extend_said, shorten_said};

use by_value::{Change, Freshened, Named, Pages, Request};
use space::Space;
use space::answers::{Allocated, Opened, Released, Resized};
use totals::Summary;

// What a call answers, with the state, and the summary.
#[derive(Clone, Copy)]
pub struct On<A> {
    pub answered: A,
    pub summary: Summary,
}

pub fn open(pages: Pages, table: &mut [u64], given: Summary) -> On<Opened>
    ensures { told (open_said result.answered table.new) result.summary
        ≡ opened_with pages.page pages.limit table.old given }
{
    let mut summary = given;
    let answered = summary::open(pages, table, &mut summary);
    On { answered, summary }
}

// With the page size and the limit of `Space::open_default`.
pub fn open_default(table: &mut [u64], given: Summary) -> On<Opened>
    ensures { told (open_said result.answered table.new) result.summary
        ≡ opened_with default_page default_limit table.old given }
{
    let mut summary = given;
    let answered = summary::open_default(table, &mut summary);
    On { answered, summary }
}

pub fn allocate(space: Space, table: &mut [u64], given: Summary, request: Request) -> On<Allocated>
    ensures { told (allocate_said result.answered table.new) result.summary
        ≡ allocated_with space request.code request.size table.old given }
{
    let mut summary = given;
    let answered = summary::allocate(space, table, &mut summary, request);
    On { answered, summary }
}

pub fn release(space: Space, table: &mut [u64], given: Summary, named: Named) -> On<Released>
    ensures { told (release_said result.answered table.new) result.summary
        ≡ released_with space named.address named.size table.old given }
{
    let mut summary = given;
    let answered = summary::release(space, table, &mut summary, named);
    On { answered, summary }
}

pub fn extend(space: Space, table: &mut [u64], given: Summary, change: Change) -> On<Resized>
    ensures { told (extend_said result.answered table.new) result.summary
        ≡ extended_with space change.address change.size change.by table.old given }
{
    let mut summary = given;
    let answered = summary::extend(space, table, &mut summary, change);
    On { answered, summary }
}

pub fn shorten(space: Space, table: &mut [u64], given: Summary, change: Change) -> On<Resized>
    ensures { told (shorten_said result.answered table.new) result.summary
        ≡ shortened_with space change.address change.size change.by table.old given }
{
    let mut summary = given;
    let answered = summary::shorten(space, table, &mut summary, change);
    On { answered, summary }
}

// Works the summary out afresh from a sound table.
pub fn fresh(space: Space, table: &[u64], given: Summary) -> On<Freshened>
    ensures { told (fresh_said result.answered table.now) result.summary
        ≡ freshened space table.now given }
{
    let mut summary = given;
    let answered = summary::fresh(space, table, &mut summary);
    On { answered, summary }
}
