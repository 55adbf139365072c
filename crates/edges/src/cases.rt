// The accepted calls as claims, in short, and the tables that they must leave.
use call::Call;
use show::answer::Answer;
use show::claim::Tally;
use show::scene::Scene;
use show::{case, scene};
use space::Space;
use std::io::Stdout;

// That a release, an extend or a shorten is done, and leaves this end.
pub fn done(stdout: Stdout, t: Tally, claim: &[u8], s: Scene, call: Call, end: u64) -> Tally {
    case::answers(stdout, t, claim, s, call, Answer::Done, end)
}

// That an allocation goes to this address, and leaves this end.
pub fn placed(
    stdout: Stdout,
    t: Tally,
    claim: &[u8],
    s: Scene,
    call: Call,
    at: u64,
    end: u64,
) -> Tally {
    case::answers(stdout, t, claim, s, call, Answer::At(at), end)
}

// That the call has this answer, and leaves exactly this state and these words.
pub fn answers_and_leaves(
    stdout: Stdout,
    t: Tally,
    claim: &[u8],
    s: Scene,
    call: Call,
    expected: Answer,
    after: Scene,
) -> Tally {
    let asked = scene::ask(s, call);
    if expected != asked.answer {
        return t.equal(stdout, claim, expected, asked.answer);
    }
    case::same(stdout, t, claim, after, asked.scene)
}

// That a release, an extend or a shorten is done, and leaves this.
pub fn leaves(stdout: Stdout, t: Tally, claim: &[u8], s: Scene, call: Call, after: Scene) -> Tally {
    answers_and_leaves(stdout, t, claim, s, call, Answer::Done, after)
}

// The scene with no entry.
pub fn none(s: Scene) -> Scene {
    Scene {
        space: Space {
            end: 0,
            count: 0,
            ..s.space
        },
        words: scene::blank(),
        len: s.len,
    }
}

// The scene with one entry more, which starts where the last one ends. Its end is the file's.
pub fn added(s: Scene, size: u64, kind: u64) -> Scene {
    let given = s.space;
    Scene {
        space: Space {
            end: given.end.wrapping_add(size),
            count: given.count.wrapping_add(1),
            ..given
        },
        words: scene::with_entry(s.words, given.count as usize, given.end, size, kind),
        len: s.len,
    }
}

// The scene with one entry.
pub fn one(s: Scene, size: u64, kind: u64) -> Scene {
    added(none(s), size, kind)
}

// With two.
pub fn two(s: Scene, size: u64, kind: u64, next_size: u64, next_kind: u64) -> Scene {
    added(one(s, size, kind), next_size, next_kind)
}
