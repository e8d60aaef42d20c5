// Reports of 256 channels, asked for so often that 255 messages hold them, or do not.
use case_answers::report_lines::asked;
use case_lines::sets::Set;
use case_lines::showing::text;
use case_lines::taking::requests_for;
use std::io;
use std::io::Write;

// The first message, the last, which is the 255th, and the one behind it.
fn most<W: Write>(out: &mut W, store: &[u8], buffer: &mut [u8]) -> io::Result<()> {
    text(out, b"channels asked for 254 times, 65024 parameters\n")?;
    asked(out, Set::Vehicle, &[0xCE; 254], 1, store, buffer)?;
    asked(out, Set::Vehicle, &[0xCE; 254], 255, store, buffer)?;
    asked(out, Set::Vehicle, &[0xCE; 254], 256, store, buffer)?;
    Ok(())
}

fn too_many<W: Write>(out: &mut W, store: &[u8], buffer: &mut [u8]) -> io::Result<()> {
    text(out, b"channels asked for 255 times, 65280 parameters\n")?;
    asked(out, Set::Vehicle, &[0xCE; 255], 1, store, buffer)?;
    Ok(())
}

pub(crate) fn run<W: Write>(out: &mut W, store: &mut [u8]) -> io::Result<()> {
    requests_for(
        out,
        Set::Vehicle,
        b"a fresh store\n\
        256 channels: 01 CE 0184 C100 {80 x 0F11 #}\n",
        store,
    )?;
    let mut buffer = [0xEEu8; 8192];
    most(out, store, &mut buffer)?;
    let mut other = [0xEEu8; 8192];
    too_many(out, store, &mut other)
}
