// The calls that keep a summary: each takes the summary lent by `&mut`, as the customer asked. The work is done by the function of the same name
// in `by_value`, which takes the summary by value and hands back the answer, and the summary if the call changes it. So each function here is
// thin: it copies the summary out, makes the call, writes a summary that came back, and hands the answer back.
// A refused call writes no number of the summary. All bodies have one shape, and need no proof file: the customer's form is one thin function
// per call (document 01), and what differs is the call alone.
#![tactic(auto)]

ghost use Rattle.std.specs.Prelude.{◌≡◌};
ghost use Rattle.by_value.specs.Told.{told, fresh_said};
ghost use Rattle.by_value.specs.With.{opened_with, allocated_with, released_with, extended_with, shortened_with, freshened};
ghost use Rattle.space.specs.Opening.{default_page, default_limit};
ghost use Rattle.space.specs.Said.{open_said, allocate_said, release_said, extend_said, shorten_said};

use by_value::{Change, Freshened, Named, Pages, Request};
use space::Space;
use space::answers::{Allocated, Opened, Released, Resized};
use totals::Summary;

pub fn open(pages: Pages, table: &mut [u64], summary: &mut Summary) -> Opened
    ensures { told (open_said result table.new) summary.new
        ≡ opened_with pages.page pages.limit table.old summary.old }
{
    let done = by_value::open(pages, table);
    if let Some(changed) = done.summary {
        *summary = changed;
    }
    done.answered
}

// With the page size and the limit of `Space::open_default`.
pub fn open_default(table: &mut [u64], summary: &mut Summary) -> Opened
    ensures { told (open_said result table.new) summary.new
        ≡ opened_with default_page default_limit table.old summary.old }
{
    let done = by_value::open_default(table);
    if let Some(changed) = done.summary {
        *summary = changed;
    }
    done.answered
}

pub fn allocate(
    space: Space,
    table: &mut [u64],
    summary: &mut Summary,
    request: Request,
) -> Allocated
    ensures { told (allocate_said result table.new) summary.new
        ≡ allocated_with space request.code request.size table.old summary.old }
{
    let given = *summary;
    let done = by_value::allocate(space, table, given, request);
    if let Some(changed) = done.summary {
        *summary = changed;
    }
    done.answered
}

pub fn release(space: Space, table: &mut [u64], summary: &mut Summary, named: Named) -> Released
    ensures { told (release_said result table.new) summary.new
        ≡ released_with space named.address named.size table.old summary.old }
{
    let given = *summary;
    let done = by_value::release(space, table, given, named);
    if let Some(changed) = done.summary {
        *summary = changed;
    }
    done.answered
}

pub fn extend(space: Space, table: &mut [u64], summary: &mut Summary, change: Change) -> Resized
    ensures { told (extend_said result table.new) summary.new
        ≡ extended_with space change.address change.size change.by table.old summary.old }
{
    let given = *summary;
    let done = by_value::extend(space, table, given, change);
    if let Some(changed) = done.summary {
        *summary = changed;
    }
    done.answered
}

pub fn shorten(space: Space, table: &mut [u64], summary: &mut Summary, change: Change) -> Resized
    ensures { told (shorten_said result table.new) summary.new
        ≡ shortened_with space change.address change.size change.by table.old summary.old }
{
    let given = *summary;
    let done = by_value::shorten(space, table, given, change);
    if let Some(changed) = done.summary {
        *summary = changed;
    }
    done.answered
}

// Works the summary out afresh from a sound table; the table stays as it is.
pub fn fresh(space: Space, table: &[u64], summary: &mut Summary) -> Freshened
    ensures { told (fresh_said result table.now) summary.new
        ≡ freshened space table.now summary.old }
{
    let done = by_value::fresh(space, table);
    if let Some(changed) = done.summary {
        *summary = changed;
    }
    done.answered
}
