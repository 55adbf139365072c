// README's examples of the calls in Rattle, word for word: tests/readme holds the two together.
#![tactic(auto)]

use message::{Fields, Refusal};
use space::Space;
use space::answers::NO_ADDRESS;

// Opens a file, has 96 bytes of metadata placed, and gives them back: where they were, if all was done.
fn placed_and_released(table: &mut [u64]) -> u64 {
    let opened = Space::open(512, 5120, table);
    let file = opened.space;
    let placed = file.allocate(table, space::place::METADATA, 96);
    let file = placed.space;
    let Ok(address) = placed.answer else {
        return NO_ADDRESS;
    };
    let released = file.release(table, address, 96);
    match released.answer {
        Ok(()) => address,
        Err(_) => NO_ADDRESS,
    }
}

// Writes a message of a page size and an end into a header block, and reads it back: the end that it tells.
fn end_told(page: u64, end: u64, header: &mut [u8]) -> Result<u64, Refusal> {
    let fields = Fields {
        strategy: 1,
        persist: 1,
        threshold: 0,
        page,
        page_end: 0,
        eoa: end,
        small: [0u64; 6],
        large: [0u64; 6],
    };
    message::write(fields, header)?;
    let told = message::read(header)?;
    Ok(told.eoa)
}

use by_value::{Named, Pages, Request};
use totals::Summary;

// Opens a file with a summary of its own, has 96 bytes of metadata placed, and gives them back: the summary then.
fn summary_of_a_release(table: &mut [u64]) -> Summary {
    let pages = Pages {
        page: 512,
        limit: 5120,
    };
    let opened = own_summary::open(pages, table, totals::no_totals());
    let summary = opened.summary;
    let done = opened.answered;
    let file = done.space;
    let request = Request {
        code: space::place::METADATA,
        size: 96,
    };
    let placed = own_summary::allocate(file, table, summary, request);
    let summary = placed.summary;
    let done = placed.answered;
    let file = done.space;
    let answer = done.answer;
    let named = Named {
        address: answer.unwrap_or(NO_ADDRESS),
        size: 96,
    };
    let released = own_summary::release(file, table, summary, named);
    released.summary
}

// Whether a log agrees.
fn is_in_order(log: &[u8]) -> bool {
    log_judge::judge_log(log).is_ok()
}
