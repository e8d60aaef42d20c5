// Parameters that are texts: quick texts and status texts.
ghost use Rattle.report_reading.specs.Readers.{ItemAt};
ghost use Rattle.reports.specs.declared.Asked.{Asked};

use super::heads::read_head;
use super::items::Item;
use read_fields::texts::read_text;
use writing::Coding;

pub(crate) fn read_quick(m: &[u8], p: usize) -> Option<(Item, usize)>
    ensures { ItemAt Asked.QuickTexts m.now p result }
{
    let n = read_head(m, p, 2, 0x100)?;
    let (text, next) = read_text(m, p + 2, 23, Coding::Unicode16)?;
    if text.units < 1 {
        return None;
    }
    let index = (n / 4 % 64) as u8;
    Some((Item::Quick(index, text), next))
}

pub(crate) fn read_status(m: &[u8], p: usize) -> Option<(Item, usize)>
    ensures { ItemAt Asked.StatusTexts m.now p result }
{
    let n = read_head(m, p, 3, 0x1_0000)?;
    let code = (n / 256 % 256) as u8;
    if !(32..=127).contains(&code) {
        return None;
    }
    let (text, next) = read_text(m, p + 3, 16, Coding::Unicode16)?;
    let index = (n % 256) as u8;
    Some((Item::Status(code, index, text), next))
}
