// Words seen as bits: one bit, words made from bools, bits set and cleared, the bytes of a word, a choice.
// The definitions are in specs/, their laws in proofs/.
#![tactic(auto)]

ghost use Rattle.std.specs.Prelude.{◌≡◌, false, ◌≤◌, ◌<◌, get_or, if◌then◌else◌};
ghost use Rattle.bits.specs.Bits.{bit_at, one_if_of, mask_of, set_of, clear_of, has_only};
ghost use Rattle.bits.specs.Bytes.{bytes_of};

// The lowest eight bits of a word.
const BYTE: u32 = 0xFF;

// Bit i of a word; a word has no bit 32 or above.
pub fn bit_at(word: u32, i: u32) -> bool
    ensures { result ≡ bit_at word i }
{
    if i < 32 {
        return (word >> i) % 2 == 1;
    }
    false
}

// `u32::from` under the definition's name. The second clause is what a sum of such digits asks: that it fits.
pub fn one_if(t: bool) -> u32
    ensures value { result ≡ one_if_of t }
    ensures upper_bound { result ≤ 1 }
{
    u32::from(t)
}

// The byte whose bits are given, lowest first: a sum, since a fold over them would have to carry that it fits.
pub fn mask8(ts: [bool; 8]) -> u8
    ensures { result ≡ mask_of 8 (λ i. get_or ts i false) }
{
    u8::from(ts[0])
        + 2 * u8::from(ts[1])
        + 4 * u8::from(ts[2])
        + 8 * u8::from(ts[3])
        + 16 * u8::from(ts[4])
        + 32 * u8::from(ts[5])
        + 64 * u8::from(ts[6])
        + 128 * u8::from(ts[7])
}

pub fn set(word: u32, mask: u32) -> u32
    ensures { result ≡ set_of mask word }
{
    word | mask
}

// Set first and then flipped: no width has to be known.
pub fn clear(word: u32, mask: u32) -> u32
    ensures { result ≡ clear_of mask word }
{
    (word | mask) ^ mask
}

pub fn has_only(word: u32, mask: u32) -> bool
    ensures { result ≡ has_only mask word }
{
    word | mask == mask
}

// [Registers.1] [Split.2b] register 10's layout, which the acknowledges share
// [Split.2a] by shifts and masks, not by `to_le_bytes`; no other place takes such a word apart
#[tactic(auto, using(crate::proofs::BytesLaws::shift_is_byte), unfolding(crate::specs::Bits::tabulate))]
pub fn bytes(word: u32) -> [u8; 4]
    ensures { result ≡ bytes_of word }
{
    let branch1 = (word & BYTE) as u8;
    let branch2 = ((word >> 8) & BYTE) as u8;
    let branch3 = ((word >> 16) & BYTE) as u8;
    let branch4 = ((word >> 24) & BYTE) as u8;
    [branch1, branch2, branch3, branch4]
}

// A choice without a branch in the code above it.
pub fn select<T: Copy>(t: bool, a: T, b: T) -> T
    ensures { result ≡ (if t then a else b) }
{
    if t { a } else { b }
}
