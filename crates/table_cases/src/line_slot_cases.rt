// Line slots: a number and a text by index, whose deletes hold every field to its range.
use case_answers::row_lines::row;
use case_lines::taking::requests;
use std::io;
use std::io::Write;

pub(crate) fn run<W: Write>(out: &mut W, store: &mut [u8]) -> io::Result<()> {
    requests(
        out,
        b"a fresh store\n\
        line slot 3: 01 D3 0009 42 03 2345FF 0000\n\
        line slot 3 with reserved bits: 01 D3 0009 43 F3 2345FF 0000\n\
        line slot 3 over another: 01 D3 000A 60 03 12FF 0041 0000\n\
        line slot with operation 11: 01 D3 0009 C2 03 2345FF 0000\n\
        line slot with operation 00: 01 D3 0009 02 03 2345FF 0000\n\
        line slot without a digit: 01 D3 0007 40 03 FF 0000\n\
        line slot 15 with 18 digits and 16 units: 01 D3 0030 42 0F 123456789012345678FF {10 x 0041} 0000\n\
        line slot with 17 units: 01 D3 0032 42 0F 123456789012345678FF {11 x 0041} 0000\n\
        delete without a digit: 01 D3 0007 80 03 FF 0000\n\
        delete with digit A: 01 D3 0007 80 03 AF 0000\n\
        line contact 12, which is a line slot's number too: 01 CA 0008 40 01 12FF 0000\n",
        store,
    )?;
    row(out, store, 8, 3)?;
    row(out, store, 8, 15)?;
    row(out, store, 8, 16)?;
    requests(
        out,
        b"delete of line slot 3 with the number 0: 01 D3 0007 80 03 0F 0000\n\
        delete of line slot 3 again: 01 D3 0007 80 03 0F 0000\n\
        line slot 0 with DataLength one too small: 01 D3 0008 42 00 2345FF 0000\n\
        line slot 0 without a text: 01 D3 0009 42 00 2345FF 0000\n",
        store,
    )?;
    row(out, store, 8, 3)?;
    row(out, store, 8, 0)?;
    row(out, store, 1, 0)
}
