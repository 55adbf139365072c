// The tables that the cases start from.
use call::Call;
use pieces::ENTRY_WORDS;
use show::document::TABLE_WORDS;
use show::scene::Scene;
use show::{document, scene};
use space::Space;
use space::place::{METADATA, RAW};

// C = 4, the least.
const LEAST_WORDS: usize = 4 * ENTRY_WORDS;

pub fn opened(page: u64, limit: u64, words: usize) -> Scene {
    scene::open(page, limit, words).scene
}

// Document 01's run before its first step.
pub fn empty() -> Scene {
    opened(512, 5120, TABLE_WORDS)
}

// After its first step.
pub fn one() -> Scene {
    scene::after(empty(), Call::Allocate(METADATA, 96))
}

// The words of document 01's table after step 5, with a state of four numbers.
pub fn with_state(page: u64, limit: u64, end: u64, count: u64) -> Scene {
    let words = document::after_step_five();
    let space = Space {
        page,
        limit,
        end,
        count,
    };
    Scene {
        space,
        words,
        len: TABLE_WORDS,
    }
}

// Document 01's run after step 5.
pub fn five() -> Scene {
    with_state(512, 5120, 2560, 8)
}

// After step 12.
pub fn twelve() -> Scene {
    let words = document::after_step_twelve();
    let space = Space {
        page: 512,
        limit: 5120,
        end: 1024,
        count: 4,
    };
    Scene {
        space,
        words,
        len: TABLE_WORDS,
    }
}

// C = 4, and four entries: a live and a free one of raw data, a live and a free one of metadata.
pub fn full() -> Scene {
    let s = opened(512, 5120, LEAST_WORDS);
    let s = scene::after(s, Call::Allocate(RAW, 100));
    scene::after(s, Call::Allocate(METADATA, 100))
}

// C = 4, and four entries, the last two of them large and live.
pub fn full_of_large() -> Scene {
    let s = opened(512, 5120, LEAST_WORDS);
    let s = scene::after(s, Call::Allocate(RAW, 100));
    let s = scene::after(s, Call::Allocate(RAW, 512));
    scene::after(s, Call::Allocate(RAW, 512))
}
