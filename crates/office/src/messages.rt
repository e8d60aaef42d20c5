// A message: its line, and those of its parameters; or that it is refused.
use super::fields::labelled;
use super::parameters::show_parameter;
use printing::output::text;
use report_reading::handheld::read_report;
use report_reading::messages::ReportRead;
use report_reading::types::read_item;
use std::io;
use std::io::Write;

// The place of the first parameter.
const FIRST: usize = 10;

pub(crate) fn refused<W: Write>(out: &mut W, number: u8) -> io::Result<()> {
    labelled(out, b"refused ", number)?;
    text(out, b"\n")
}

// The lines of so many parameters.
fn parameters<W: Write>(out: &mut W, m: &[u8], count: u8) -> io::Result<()> {
    let mut at = FIRST;
    for _ in 0..count {
        let Some((item, next)) = read_item(m, at) else {
            return Ok(());
        };
        show_parameter(out, m, item)?;
        at = next;
    }
    Ok(())
}

fn report<W: Write>(out: &mut W, m: &[u8], total: u8, index: u8, count: u8) -> io::Result<()> {
    labelled(out, b"message ", index)?;
    labelled(out, b" of ", total)?;
    labelled(out, b", ", count)?;
    text(out, b" parameters\n")?;
    parameters(out, m, count)
}

pub(crate) fn show_message<W: Write>(out: &mut W, m: &[u8]) -> io::Result<()> {
    let read = read_report(m);
    match read {
        ReportRead::Size => refused(out, 12),
        ReportRead::Carrier => refused(out, 13),
        ReportRead::OtherType => refused(out, 14),
        ReportRead::Version => refused(out, 1),
        ReportRead::NoReport => refused(out, 4),
        ReportRead::Report(total, index, count) => report(out, m, total, index, count),
    }
}
