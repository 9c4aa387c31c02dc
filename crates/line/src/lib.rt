// The words of a line of text, counted from 0, and the number or the bytes that a word spells in hex.
//
// Every public function takes any arguments: a place may lie past the end, a word that is not there is empty, and a byte that is no digit
// counts as the digit 0.
#![tactic(auto)]

ghost use Rattle.std.specs.Prelude.{◌≡◌, ◌==◌, position, ◌++◌, ◌+◌, ◌*◌, ◌%◌, ◌^◌, min, length, get_or, take, drop};
ghost use Rattle.words.specs.Part.{seen, front_of};
ghost use Rattle.line.specs.Word.{index_of, space, between, word_of, words_part, word_part};
ghost use Rattle.line.specs.Hex.{digit_of, hex_number, hex_bytes};

// The place of the first b from a place on, or the length where there is none; a place past the end is answered as it is.
pub fn find(text: &[u8], at: usize, b: u8) -> usize
    ensures { result ≡ at + index_of b (drop at text.now) }
{
    if text.len() < at {
        return at;
    }
    let rest = &text[at..];
    at + first(rest, b).unwrap_or(rest.len())
}

// The place of the first b.
fn first(text: &[u8], b: u8) -> Option<usize>
    ensures { result ≡ position (λ x. x == b) text.now }
{
    text.iter().position(|&x| x == b)
}

// The bytes from one place up to another, as far as there are such; where the first lies behind the second or behind the text, nothing, at
// the text's start.
pub fn part(text: &[u8], start: usize, end: usize) -> &[u8]
    ensures { seen result ≡ between text.entry start end }
{
    let to = words::least(end, text.len());
    if to < start {
        return &text[..0];
    }
    &text[start..to]
}

// The first n bytes, or all where there are fewer.
pub fn front(text: &[u8], n: usize) -> &[u8]
    ensures { seen result ≡ front_of text.entry n }
{
    part(text, 0, n)
}

// What stands from a word on; nothing, at the line's end, where there are fewer words.
#[tactic(auto, using(crate::proofs::Places::from_start, crate::proofs::Places::word_passed, crate::proofs::Places::from_end))]
pub fn words_from(line: &[u8], k: usize) -> &[u8]
    ensures { seen result ≡ words_part line.entry k }
{
    let mut at = 0;
    for _ in 0..k {
        at = find(line, at, b' ');
        if line.len() <= at {
            let end = line.len();
            return &line[end..];
        }
        at += 1;
    }
    &line[at..]
}

// A word by its number.
pub fn word(line: &[u8], k: usize) -> &[u8]
    ensures { seen result ≡ word_part line.entry k }
{
    let rest = words_from(line, k);
    front(rest, find(rest, 0, b' '))
}

// The first letter, by which a kind is told; a space where there is none.
pub fn first_letter(line: &[u8]) -> u8
    ensures { result ≡ get_or line.now 0 space }
{
    line.first().copied().unwrap_or(b' ')
}

// The low 64 bits of the number that these digits spell.
#[tactic(auto, using(crate::proofs::Digits::digit_small, crate::proofs::Digits::one_more), unfolding(crate::specs::Hex::hex_number))]
pub fn value(digits: &[u8]) -> u64
    ensures { result ≡ hex_number digits.now % 2 ^ 64 }
{
    let mut n: u64 = 0;
    for &d in digits {
        n = (n << 4) + words::wide(digit(d));
    }
    n
}

// The same of a word.
pub fn number(line: &[u8], k: usize) -> u64
    ensures { result ≡ hex_number (word_of line.now k) % 2 ^ 64 }
{
    value(word(line, k))
}

// The low 32 bits of the number that a word spells.
pub fn short(line: &[u8], k: usize) -> u32
    ensures { result ≡ hex_number (word_of line.now k) % 2 ^ 32 }
{
    low(number(line, k))
}

// The low 32 bits of a number.
pub fn low(n: u64) -> u32
    ensures { result ≡ n % 2 ^ 32 }
{
    (n % 4_294_967_296) as u32
}

// Puts the bytes that a word spells at the start of out, as far as there is room, and answers how many.
#[tactic(auto, using(crate::proofs::Digits::byte_laid, crate::proofs::Digits::length_bytes))]
pub fn bytes(line: &[u8], k: usize, out: &mut [u8]) -> usize
    ensures { (result ≡ min (length out.old) (length (hex_bytes (word_of line.now k)))) × (out.new ≡ take result (hex_bytes (word_of line.now k)) ++ drop result out.old) }
{
    let digits = word(line, k);
    let n = out.len().min(digits.len() / 2);
    for i in 0..n {
        out[i] = byte(digits[2 * i], digits[2 * i + 1]);
    }
    n
}

#[tactic(auto, using(crate::proofs::Digits::digit_small))]
fn byte(high: u8, low: u8) -> u8
    ensures { result ≡ digit_of high * 16 + digit_of low }
{
    digit(high) * 16 + digit(low)
}

// The value of a digit.
#[tactic(auto, unfolding(crate::specs::Hex::digit_of))]
fn digit(b: u8) -> u8
    ensures { result ≡ digit_of b }
{
    match b {
        b'0'..=b'9' => b - b'0',
        b'a'..=b'f' => b - b'a' + 10,
        _ => 0,
    }
}
