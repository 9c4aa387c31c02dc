// Checksums of given bytes.
use crate::text;
use std::io;

pub(crate) fn case(rt: &impl Print, line: &[u8]) -> io::Result<()> {
    let mut buf = [0u8; 64];
    let n = line::bytes(line, 2, &mut buf);
    text::head(rt, line)?;
    text::checksum(rt, crc::crc32(line::front(&buf, n)))?;
    text::end(rt)
}
