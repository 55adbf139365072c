// A space as one value: the state, and the words of which the first `len` are the lent table. So a caller keeps what stood before a call, and
// compares every word after it, those behind the table too.
ghost use Rattle.std.specs.Prelude.{◌≤◌, ◌≡◌};
ghost use Rattle.show.specs.Claims.{Tells};
ghost use Rattle.show.specs.Scenes.{scene_words, part_of, blank_words, with_entry, SameScene, told_as, accepted_as, left_by, asked_of, opened_as, opened_by_default};

use crate::answer::Answer;
use crate::{answer, entry};
use call::Call;
use pieces::{ENTRY_WORDS, Piece};
use space::Space;
use space::answers::number_of;
use std::io::Stdout;

pub const ENTRIES: usize = 32;

pub const WORDS: usize = ENTRIES * ENTRY_WORDS;

#[derive(Clone, Copy)]
pub struct Scene {
    pub space: Space,
    pub words: [u64; WORDS],
    pub len: usize,
}

#[derive(Clone, Copy)]
pub struct Told {
    pub space: Space,
    pub answer: Answer,
}

#[derive(Clone, Copy)]
pub struct Asked {
    pub scene: Scene,
    pub answer: Answer,
}

pub fn blank() -> [u64; WORDS]
    ensures { result ≡ blank_words }
{
    [0u64; WORDS]
}

// The words with entry i in them, of a kind 1 to 6; as they are, if there is no entry i.
pub fn with_entry(words: [u64; WORDS], i: usize, address: u64, size: u64, kind: u64) -> [u64; WORDS]
    ensures { result ≡ with_entry words i address size kind }
{
    let mut new = words;
    if i < ENTRIES {
        let status = pieces::status_of(kind);
        pieces::put(
            &mut new,
            i,
            Piece {
                address,
                size,
                status,
            },
        );
    }
    new
}

// An opened space whose table is the first `len` words.
pub fn open(page: u64, limit: u64, len: usize) -> Asked
    ensures { result ≡ opened_as page limit len }
{
    let mut words = blank();
    let lent = part(len);
    let done = Space::open(page, limit, &mut words[..lent]);
    Asked {
        scene: Scene {
            space: done.space,
            words,
            len,
        },
        answer: answer::of_number(number_of(done.answer), Answer::Done),
    }
}

// The default opening over all words.
pub fn open_default() -> Asked
    ensures { result ≡ opened_by_default }
{
    let mut words = blank();
    let done = Space::open_default(&mut words);
    Asked {
        scene: Scene {
            space: done.space,
            words,
            len: WORDS,
        },
        answer: answer::of_number(number_of(done.answer), Answer::Done),
    }
}

// What an accepted call answers.
fn accepted(call: Call, answer: u64) -> Answer
    ensures { result ≡ accepted_as call answer }
{
    match call {
        Call::Allocate(_, _) => Answer::At(answer),
        Call::Release(_, _) | Call::Extend(_, _, _) | Call::Shorten(_, _, _) => Answer::Done,
    }
}

fn tell(space: Space, table: &mut [u64], call: Call) -> Told
    ensures { told_as result table.new ≡ left_by call space table.old }
{
    let told = call::tell(space, table, call);
    let done = accepted(call, told.answer);
    Told {
        space: told.space,
        answer: answer::of_number(told.number, done),
    }
}

// So many words, or all there are.
pub fn part(len: usize) -> usize
    ensures within { result ≤ scene_words }
    ensures is { result ≡ part_of len }
{
    len.min(WORDS)
}

// The call, on the lent table.
pub fn ask(scene: Scene, call: Call) -> Asked
    ensures { result ≡ asked_of scene call }
{
    let mut words = scene.words;
    let len = part(scene.len);
    let told = tell(scene.space, &mut words[..len], call);
    Asked {
        scene: Scene {
            space: told.space,
            words,
            len: scene.len,
        },
        answer: told.answer,
    }
}

// What the call leaves.
pub fn after(scene: Scene, call: Call) -> Scene
    ensures { result ≡ (asked_of scene call).scene }
{
    ask(scene, call).scene
}

// Whether two scenes have the same words and the same state.
pub fn same_scene(a: Scene, other: Scene) -> bool
    ensures { Tells result (SameScene a other) }
{
    a.words == other.words && a.space == other.space
}

// The table, an entry to a line.
pub fn say_entries(stdout: Stdout, scene: Scene) {
    entry::say_table(stdout, &scene.words, scene.space.count);
}
