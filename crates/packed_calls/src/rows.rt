// The screen's rows. Tables: 1 lines, 2 quick texts, 3 status texts, 4 groups, 5 individuals, 6 group contacts, 7 individual contacts, 8 line slots.
ghost use Rattle.packing.specs.Packing.{AnswersNumber, AnswersPart, Packable};

use packing::rows::pack_place;
use screen::answers::number_of;
use screen::rows::row_of;
use screen::show::{number_in, place_in};
use tables::limits::Limits;

// 0: the row is shown. 15, 11, 17: it is not.
pub fn row_answer(table: u32, row: u32, store: &[u8], scratch: &[u8], limits: Limits) -> u32
    ensures { AnswersNumber limits table row store.now scratch.now result }
{
    let which = row_of(table, row);
    let answer = number_in(store, scratch, which, limits);
    number_of(answer) as u32
}

// Whether it is a part of the store or of the scratch, where it starts and its length; 0 on a refusal.
pub fn packed_part(table: u32, row: u32, store: &[u8], scratch: &mut [u8], limits: Limits) -> u64
    ensures { Packable limits → AnswersPart limits table row store.now scratch.old scratch.new result }
{
    let which = row_of(table, row);
    let place = place_in(store, scratch, which, limits);
    pack_place(place)
}
