// Scan channels: padding, repeats, and room for 64.
use case_lines::taking::requests;
use std::io;
use std::io::Write;

// Repeated are channels 241 and 256, 241 and 257 and so on.
pub(crate) fn run<W: Write>(out: &mut W, store: &mut [u8]) -> io::Result<()> {
    requests(
        out,
        b"a fresh store\n\
        channel 241 with padding 0: 01 CE 0006 C001 0F1 0\n\
        channel 241 with padding 1111: 01 CE 0006 C001 0F1 F\n\
        channel 241 with reserved bits: 01 CE 0006 FC01 0F1 F\n\
        channel 240: 01 CE 0006 4001 0F0 F\n\
        channel 641: 01 CE 0006 4001 281 F\n\
        channels with DataLength one too large, and a byte more: 01 CE 0008 C002 0F1 280 00\n\
        add of no channel: 01 CE 0004 4000\n\
        65 channels: 01 CE 0066 C041 {20 x 0F11 #} 0F1F\n\
        65 channels, the last out of range: 01 CE 0066 C041 {20 x 0F11 #} 0F0F\n\
        64 channels: 01 CE 0064 C040 {20 x 0F11 #}\n\
        channels replaced by 241 and 241: 01 CE 0007 C002 0F1 0F1\n\
        62 more channels: 01 CE 0061 403E {1F x 0F11 #}\n\
        the 65th channel: 01 CE 0006 4001 0F2F\n\
        the 65th channel, then LA 9: 02 CE 0006 4001 0F2F CF 0005 0009 00\n\
        delete of channel 242, which is not there: 01 CE 0006 8001 0F2F\n\
        delete of channel 241, which is there 33 times: 01 CE 0006 8001 0F1F\n\
        33 more channels: 01 CE 0036 4021 {10 x 0F11 #} 0F1F\n\
        the 65th channel again: 01 CE 0006 4001 0F2F\n\
        a delete, then the 65th channel: 02 CE 0006 8001 0F1F CE 0006 4001 0F2F\n",
        store,
    )
}
