// Headers: the frame that one states, or its refusal.
use crate::text;
use log_batch::LogBatch;
use std::io;

pub(crate) fn case(rt: &impl Print, line: &[u8]) -> io::Result<()> {
    let mut buf = [0u8; 16];
    let n = line::bytes(line, 2, &mut buf);
    text::head(rt, line)?;
    match LogBatch::decode_header(line::front(&buf, n)) {
        Ok(batch) => {
            text::word(rt, b"read")?;
            text::numbers(
                rt,
                &[
                    batch.offset as u64,
                    batch.len as u64,
                    u64::from(batch.compression),
                ],
            )?;
        }
        Err(reason) => text::number(rt, u64::from(reason.number()))?,
    }
    text::end(rt)
}
