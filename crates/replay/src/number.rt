// Numbers, read and written, and checksums.
use crate::answer;
use codec::NumberError;

// read NAME BYTES = VALUE NEXT, or eof, or overflow
pub(crate) fn read(line: &[u8]) -> bool {
    let mut buf = [0u8; 32];
    let n = line::bytes(line, 2, &mut buf);
    match codec::decode_var_u64(line::front(&buf, n), 0) {
        Ok(number) => {
            answer::is_number(line, 4, number.value)
                && answer::is_number(line, 5, number.next as u64)
        }
        Err(NumberError::Eof) => answer::is_word(line, 4, b"eof"),
        Err(NumberError::Overflow) => answer::is_word(line, 4, b"overflow"),
    }
}

// number NAME N = BYTES
pub(crate) fn written(line: &[u8]) -> bool {
    let mut buf = [0u8; 10];
    let n = line::number(line, 2);
    let len = codec::var_u64_len(n);
    codec::encode_var_u64(n, &mut buf, 0);
    answer::is_bytes(line, 4, line::front(&buf, len))
}

// crc NAME BYTES = SUM
pub(crate) fn checksum(line: &[u8]) -> bool {
    let mut buf = [0u8; 512];
    let n = line::bytes(line, 2, &mut buf);
    answer::is_number(line, 4, u64::from(crc::crc32(line::front(&buf, n))))
}
