// The CRC-32 of IEEE 802.3, a byte at a time.
#![tactic(auto)]

ghost use Rattle.std.specs.Prelude.{◌≡◌};
ghost use Rattle.std.specs.Int.Bits.{bit_xor};
ghost use Rattle.crc.specs.Crc.{steps, crc_of};

// The register after a byte. LLVM knows the loop by this form, with the polynomial as a literal, and compiles it to one
// lookup in a read-only table.
#[tactic(auto, using(crate::proofs::Laws::bit_one, crate::proofs::Laws::bit_zero, crate::proofs::Laws::bits_done))]
fn next(old: u32, b: u8) -> u32
    ensures { result ≡ steps 8 (bit_xor old b) }
{
    let mut r = old ^ u32::from(b);
    for _ in 0..u8::BITS {
        if r % 2 == 1 {
            r = (r >> 1) ^ 0xEDB8_8320;
        } else {
            r = r >> 1;
        }
    }
    r
}

// The checksum of `data`.
#[tactic(auto, using(crate::proofs::Laws::byte_next, crate::proofs::Laws::bytes_done))]
pub fn crc32(data: &[u8]) -> u32
    ensures { result ≡ crc_of «data».now }
{
    let mut r: u32 = 0xFFFF_FFFF;
    for &b in data {
        r = next(r, b);
    }
    r ^ 0xFFFF_FFFF
}
