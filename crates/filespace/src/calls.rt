// The calls by their names, and how many words each takes.
use script::words::is_text;
use space::place::{METADATA, RAW};

// The manager of large sections, as a listing names it.
const LARGE: u64 = 3;

#[derive(Clone, Copy)]
pub enum Call {
    Open,
    Default,
    Allocate,
    Release,
    Extend,
    Shorten,
    List,
    State,
    Words,
    Table,
    Map,
    Show,
    Read,
    Write,
    Summary,
    Fresh,
    Sheet,
}

const NAMES: [(&str, Call); 17] = [
    ("open", Call::Open),
    ("default", Call::Default),
    ("allocate", Call::Allocate),
    ("release", Call::Release),
    ("extend", Call::Extend),
    ("shorten", Call::Shorten),
    ("list", Call::List),
    ("state", Call::State),
    ("words", Call::Words),
    ("table", Call::Table),
    ("map", Call::Map),
    ("show", Call::Show),
    ("read", Call::Read),
    ("write", Call::Write),
    ("summary", Call::Summary),
    ("fresh", Call::Fresh),
    ("sheet", Call::Sheet),
];

pub fn call_of(word: &[u8]) -> Option<Call> {
    let (_, call) = NAMES
        .iter()
        .find(|(name, _)| is_text(word, name.as_bytes()))?;
    Some(*call)
}

impl Call {
    // Whether it takes so many words.
    pub fn takes(self, count: usize) -> bool {
        match self {
            Call::Table | Call::Map | Call::Fresh | Call::Sheet => count == 0,
            Call::Read => count <= 1,
            Call::Default | Call::Show => count == 1,
            Call::Allocate | Call::Release | Call::List => count == 2,
            Call::Open | Call::Extend | Call::Shorten => count == 3,
            Call::State => count == 4,
            Call::Write => count == 19,
            Call::Summary => count == 29,
            Call::Words => true,
        }
    }

    // The number that its first word names: a type, or a manager.
    pub fn named(self, word: &[u8]) -> Option<u64> {
        match self {
            Call::Allocate | Call::List if is_text(word, b"metadata") => Some(METADATA),
            Call::Allocate | Call::List if is_text(word, b"raw") => Some(RAW),
            Call::List if is_text(word, b"large") => Some(LARGE),
            _ => None,
        }
    }
}
