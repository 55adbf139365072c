// Which refusal comes first where several could: a head that is short, another version, a broken field of the head, addresses that are missing.
use crate::cases::{BLOCK, PERSIST_AT, head, with_byte};
use crate::tell;
use crate::tell::{agree, begin, finish, item};
use show::claim::Tally;
use std::io::Stdout;

// The good message with another version, persist byte and page size, how many bytes of it are lent, and the answer.
#[derive(Clone, Copy)]
struct Case {
    version: u8,
    persist: u8,
    page: u16,
    lent: usize,
    number: u64,
}

// Where the version stands, and the two lowest bytes of the page size, of which the rest are 0.
const VERSION_AT: usize = 0;

const PAGE_AT: usize = 11;

impl Case {
    const fn new(version: u8, persist: u8, page: u16, lent: usize, number: u64) -> Case {
        Case {
            version,
            persist,
            page,
            lent,
            number,
        }
    }

    // The bytes of the case.
    fn block(self, good: &[u8; BLOCK]) -> [u8; BLOCK] {
        let [low, high] = self.page.to_le_bytes();
        let version = with_byte(good, VERSION_AT, self.version);
        let persist = with_byte(&version, PERSIST_AT, self.persist);
        with_byte(&with_byte(&persist, PAGE_AT, low), PAGE_AT + 1, high)
    }

    // That the case is answered so.
    fn claim(self, stdout: Stdout, t: Tally, good: &[u8; BLOCK]) -> Tally {
        let block = self.block(good);
        let found = message::number_of(message::read(head(&block, self.lent)));
        let held = agree(stdout, tell::READ, self.number, found);
        begin(stdout, held, tell::VERSION, u64::from(self.version));
        item(stdout, tell::PERSIST, u64::from(self.persist));
        item(stdout, tell::PAGE, u64::from(self.page));
        item(stdout, tell::BYTES, self.lent as u64);
        item(stdout, tell::READ, self.number);
        finish(stdout, t, held)
    }
}

pub fn order(stdout: Stdout, t: Tally, good: &[u8; BLOCK]) -> Tally {
    let cases = [
        Case::new(2, 2, 511, 28, 10),
        Case::new(2, 2, 511, 29, 11),
        Case::new(2, 1, 4096, 60, 11),
        Case::new(1, 2, 4096, 28, 10),
        Case::new(1, 2, 4096, 60, 12),
        Case::new(1, 1, 511, 60, 12),
        Case::new(1, 0, 511, 29, 12),
        Case::new(1, 1, 511, 200, 12),
        Case::new(1, 1, 4096, 29, 10),
        Case::new(1, 1, 4096, 124, 10),
        Case::new(1, 0, 4096, 29, 0),
        Case::new(1, 0, 4096, 60, 0),
    ];
    cases.iter().fold(t, |t, case| case.claim(stdout, t, good))
}
