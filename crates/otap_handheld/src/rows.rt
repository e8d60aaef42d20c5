// The screen's rows. Tables: 1 lines, 2 quick texts, 3 status texts, 4 groups, 5 individuals, 6 group contacts, 7 individual contacts, 8 line slots.
ghost use Rattle.tables.specs.Limits.{handheld};
ghost use Rattle.packing.specs.Packing.{AnswersNumber, AnswersPart};

use packed_calls::rows::{packed_part, row_answer};
use tables::limits::HANDHELD;

// 0: the row is shown. 15, 11, 17: it is not.
#[unsafe(no_mangle)]
pub extern "C" fn otap_row_number(table: u32, row: u32, store: &[u8], scratch: &[u8]) -> u32
    ensures { AnswersNumber handheld table row store.now scratch.now result }
{
    row_answer(table, row, store, scratch, HANDHELD)
}

// Whether it is a part of the store or of the scratch, where it starts and its length; 0 on a refusal.
#[unsafe(no_mangle)]
pub extern "C" fn otap_row_part(table: u32, row: u32, store: &[u8], scratch: &mut [u8]) -> u64
    ensures { AnswersPart handheld table row store.now scratch.old scratch.new result }
{
    packed_part(table, row, store, scratch, HANDHELD)
}
