// The emergency key, the home numbers and the system code; types, lengths and counts of settings.
use case_lines::taking::requests;
use std::io;
use std::io::Write;

pub(crate) fn run<W: Write>(out: &mut W, store: &mut [u8]) -> io::Result<()> {
    requests(
        out,
        b"a fresh store\n\
        LA 8: 01 CF 0005 0008 00\n\
        LA 9: 01 CF 0005 0009 00\n\
        roaming 11: 01 CF 0005 0008 C0\n\
        LA 8 with reserved bits: 01 CF 0005 0008 1F\n\
        NP 806: 01 CD 0005 07E4C0\n\
        NP 807: 01 CD 0005 07E4E0\n\
        NP 806 with reserved bits: 01 CD 0005 07E4DF\n\
        key on a group: 01 CB 0006 60 100001\n\
        key on the current place: 01 CB 0003 A0\n\
        key on the current place with reserved bits: 01 CB 0003 A7\n\
        key on the current place with an address: 01 CB 0006 A0 100001\n\
        key without its address: 01 CB 0003 20\n\
        key on address 0FFFFF: 01 CB 0006 20 0FFFFF\n\
        key on address 108000: 01 CB 0006 20 108000\n\
        unknown type D4: 01 D4 0003 00\n\
        unknown type C7: 01 C7 0003 00\n\
        unknown type as the last byte: 02 CF 0005 0001 00 D4\n\
        known type as the last byte: 02 CF 0005 0001 00 CD\n\
        type byte missing: 02 CF 0005 0001 00\n\
        LA 9, then an unknown type: 02 CF 0005 0009 00 D4\n\
        a byte left over: 01 CF 0005 0001 00 00\n\
        a setting left over: 01 CF 0005 0001 00 CF 0005 0002 00\n\
        DataLength one too small: 01 CF 0004 0001 00\n\
        DataLength one too large: 01 CF 0006 0001 00\n\
        DataLength one too large, and a byte more: 01 CF 0006 0001 00 00\n\
        DataLength over the next setting: 01 CB 0009 A0 CF 0005 0001 00\n\
        DataLength cut: 01 CF 00\n\
        fields cut: 01 CF 0005 0001\n\
        eight settings: 08 {08 x CD 0005 # 64C0}\n\
        a fresh store\n\
        eight settings, then LA 9: 09 {08 x CD 0005 # 64C0} CF 0005 0009 00\n",
        store,
    )
}
