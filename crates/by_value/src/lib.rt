// The calls with a summary, by value: each hands back its answer, and the summary then if the call changes it; the calls that look at the summary
// that was given take it. `summary` has the same calls over a summary that is lent; those copy it out and in, and the work is done here.
//
// Each call tests state and table once, and the summary against the table; then it decides (`space`), reads the totals of the entries that are to
// go, carries the change out, and finds the new totals from those that were given, those that went and those that were laid.
#![tactic(auto)]

ghost use Rattle.std.specs.Prelude.{◌≡◌, ◌&&◌, Ok, Err, Some, None};
ghost use Rattle.by_value.specs.Change.{ChangeFits, change_said, changed_by};
ghost use Rattle.by_value.specs.Told.{told, kept, fresh_refusal, fresh_some, fresh_said};
ghost use Rattle.by_value.specs.With.{agreeb, unless_refused, opened_with, allocated_with, released_with, resized_with};
ghost use Rattle.by_value.specs.With.{extended_with, shortened_with, freshened};
ghost use Rattle.refusals.specs.AnswerNumbers.{open_number};
ghost use Rattle.space.specs.Opening.{default_page, default_limit};
ghost use Rattle.space.specs.Outcomes.{soundb};
ghost use Rattle.space.specs.Said.{open_said, allocate_said, release_said, resize_said, extend_said, shorten_said};
ghost use Rattle.totals.specs.Summary.{no_totals};

use change::plan::Plan;
use space::Space;
use space::answers::{
    AllocateRefusal, Allocated, Answered, NOT_SOUND, Opened, Refusal, ReleaseRefusal, Released,
    ResizeRefusal, Resized,
};
use space::give::Way;
use totals::Summary;

// ---- what a call is asked

#[derive(Clone, Copy)]
pub struct Pages {
    pub page: u64,
    pub limit: u64,
}

#[derive(Clone, Copy)]
pub struct Request {
    pub code: u64,
    pub size: u64,
}

// A live piece.
#[derive(Clone, Copy)]
pub struct Named {
    pub address: u64,
    pub size: u64,
}

// A live piece, and by how many bytes it is to be longer or shorter.
#[derive(Clone, Copy)]
pub struct Change {
    pub address: u64,
    pub size: u64,
    pub by: u64,
}

// ---- what it hands back: the state with the answer, and the summary

// The one refusal of a summary that is worked out afresh.
#[derive(Clone, Copy, Debug, PartialEq, Eq)]
pub enum FreshRefusal {
    NotSound,
}

impl Refusal for FreshRefusal {
    ghost by_number = { fresh_refusal };

    ghost never_0 = { fresh_some };

    fn number(self) -> u64 {
        match self {
            FreshRefusal::NotSound => NOT_SOUND,
        }
    }
}

pub type Freshened = Answered<(), FreshRefusal>;

// What a call answers, and the summary then; none, where the call leaves it as it was given.
#[derive(Clone, Copy)]
pub struct With<A> {
    pub answered: A,
    pub summary: Option<Summary>,
}

// The state and the summary behind a change.
#[derive(Clone, Copy)]
pub struct Changed {
    pub space: Space,
    pub summary: Summary,
}

// A refused call: the state and the summary stay as they were.
fn refused<T, E>(space: Space, refusal: E) -> With<Answered<T, E>>
    ensures { result ≡ record { answered = record { space = space; answer = Err refusal }; summary = None } }
{
    With {
        answered: space.answers(Err(refusal)),
        summary: None,
    }
}

// An accepted one, and what it tells.
fn done<T, E>(changed: Changed, told: T) -> With<Answered<T, E>>
    ensures { result ≡ record { answered = record { space = changed.space; answer = Ok told }; summary = Some changed.summary } }
{
    With {
        answered: changed.space.answers(Ok(told)),
        summary: Some(changed.summary),
    }
}

// ---- the parts of a call

// Whether state and table are sound together, and the summary agrees with the table.
fn agrees(space: Space, table: &[u64], given: Summary) -> bool
    ensures { result ≡ (soundb space table.now && agreeb space table.now given) }
{
    space.is_sound(table) && running::agrees(given, space.entries(table))
}

// The change that was decided on is written, and the new totals are found.
fn carry_out(space: Space, table: &mut [u64], given: Summary, plan: Plan) -> Changed
    requires { ChangeFits space table.old given plan }
    ensures { change_said result table.new ≡ changed_by space table.old plan }
{
    let from = plan.from;
    let to = plan.to;
    let count = plan.count;
    let behind = space.count as usize - to;
    let was = totals::work_out(pieces::words_of(table, from, to));
    let next = space.carry_out(table, plan);
    let is = totals::work_out(pieces::words_of(table, from, count - behind));
    let moved = totals::moved_by(space.end, next.end);
    Changed {
        space: next,
        summary: running::replaced(given, was, is, moved, next.entries(table)),
    }
}

// An opening that is accepted sets every number to 0.
fn with_none(opened: Opened) -> With<Opened>
    ensures answered { result.answered ≡ opened }
    ensures summary { (given : Summary) → kept result.summary given ≡ unless_refused (open_number opened.answer) no_totals given }
{
    let summary = match opened.answer {
        Ok(()) => Some(totals::no_totals()),
        Err(_) => None,
    };
    With {
        answered: opened,
        summary,
    }
}

// ---- the calls

pub fn open(pages: Pages, table: &mut [u64]) -> With<Opened>
    ensures { (given : Summary) → told (open_said result.answered table.new) (kept result.summary given)
        ≡ opened_with pages.page pages.limit table.old given }
{
    with_none(Space::open(pages.page, pages.limit, table))
}

// With the page size and the limit of `Space::open_default`.
pub fn open_default(table: &mut [u64]) -> With<Opened>
    ensures { (given : Summary) → told (open_said result.answered table.new) (kept result.summary given)
        ≡ opened_with default_page default_limit table.old given }
{
    with_none(Space::open_default(table))
}

pub fn allocate(
    space: Space,
    table: &mut [u64],
    given: Summary,
    request: Request,
) -> With<Allocated>
    ensures { told (allocate_said result.answered table.new) (kept result.summary given)
        ≡ allocated_with space request.code request.size table.old given }
{
    if !agrees(space, table, given) {
        return refused(space, AllocateRefusal::NotSound);
    }
    match space.decide_allocate(table, request.code, request.size) {
        Ok((address, plan)) => done(carry_out(space, table, given, plan), address),
        Err(refusal) => refused(space, refusal),
    }
}

pub fn release(space: Space, table: &mut [u64], given: Summary, named: Named) -> With<Released>
    ensures { told (release_said result.answered table.new) (kept result.summary given)
        ≡ released_with space named.address named.size table.old given }
{
    if !agrees(space, table, given) {
        return refused(space, ReleaseRefusal::NotSound);
    }
    match space.decide_release(table, named.address, named.size) {
        Ok(plan) => done(carry_out(space, table, given, plan), ()),
        Err(refusal) => refused(space, refusal),
    }
}

pub fn extend(space: Space, table: &mut [u64], given: Summary, change: Change) -> With<Resized>
    ensures { told (extend_said result.answered table.new) (kept result.summary given)
        ≡ extended_with space change.address change.size change.by table.old given }
{
    resize(space, table, given, change, Way::Longer)
}

pub fn shorten(space: Space, table: &mut [u64], given: Summary, change: Change) -> With<Resized>
    ensures { told (shorten_said result.answered table.new) (kept result.summary given)
        ≡ shortened_with space change.address change.size change.by table.old given }
{
    resize(space, table, given, change, Way::Shorter)
}

fn resize(
    space: Space,
    table: &mut [u64],
    given: Summary,
    change: Change,
    way: Way,
) -> With<Resized>
    ensures { told (resize_said result.answered table.new) (kept result.summary given)
        ≡ resized_with space change.address change.size way change.by table.old given }
{
    if !agrees(space, table, given) {
        return refused(space, ResizeRefusal::NotSound);
    }
    match space.decide_resize(table, change.address, change.size, way, change.by) {
        Ok(plan) => done(carry_out(space, table, given, plan), ()),
        Err(refusal) => refused(space, refusal),
    }
}

// The summary worked out afresh, for a table that was kept without one: no call has moved the end.
pub fn fresh(space: Space, table: &[u64]) -> With<Freshened>
    ensures { (given : Summary) → told (fresh_said result.answered table.now) (kept result.summary given)
        ≡ freshened space table.now given }
{
    if !space.is_sound(table) {
        return refused(space, FreshRefusal::NotSound);
    }
    let summary = totals::work_out(space.entries(table));
    done(Changed { space, summary }, ())
}
