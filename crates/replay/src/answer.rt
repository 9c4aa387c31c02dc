// Whether the words of the Rust's answer are given ones: a number, a text, bytes in hex, or a refusal.
pub(crate) fn is_number(line: &[u8], k: usize, n: u64) -> bool {
    !line::word(line, k).is_empty() && line::number(line, k) == n
}

// Whether a word is this text.
pub(crate) fn is_word(line: &[u8], k: usize, text: &[u8]) -> bool {
    line::word(line, k) == text
}

// Whether a word spells these bytes; `-` spells none. The buffer is longer than any bytes that are asked for, so that a word which is cut to it
// differs.
pub(crate) fn is_bytes(line: &[u8], k: usize, bytes: &[u8]) -> bool {
    if bytes.is_empty() {
        return is_word(line, k, b"-");
    }
    let mut buf = [0u8; 2048];
    let n = line::bytes(line, k, &mut buf);
    line::front(&buf, n) == bytes
}

// Whether the answer from a word on is the refusal of this number.
pub(crate) fn is_refused(line: &[u8], k: usize, number: u32) -> bool {
    k <= 1000 && is_word(line, k, b"refused") && is_number(line, k + 1, u64::from(number))
}
