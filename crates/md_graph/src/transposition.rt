//! The transposition of 64 words of 64 bits, in six rounds of 64 words each.
ghost use Rattle.std.specs.Prelude.{◌≡◌, ℕ, ◌+◌, ◌-◌, ◌*◌, ◌/◌, ◌%◌, ◌<◌, length, slice_index};
ghost use Rattle.std.specs.Int.{bit_at};
ghost use Rattle.md_graph.specs.Blocks.{IsFirstHalf, IsRound};

// The words transposed: bit k of word r is bit r of word k.
pub(crate) fn transposed(words: &[u64; 64]) -> [u64; 64]
    ensures { (r k : ℕ) → r < 64 → k < 64
        → bit_at (slice_index result r) k ≡ bit_at (slice_index words.now k) r }
{
    let by_32 = round(words, 32, 0x0000_0000_ffff_ffff);
    let by_16 = round(&by_32, 16, 0x0000_ffff_0000_ffff);
    let by_8 = round(&by_16, 8, 0x00ff_00ff_00ff_00ff);
    let by_4 = round(&by_8, 4, 0x0f0f_0f0f_0f0f_0f0f);
    let by_2 = round(&by_4, 2, 0x3333_3333_3333_3333);
    round(&by_2, 1, 0x5555_5555_5555_5555)
}

// One round: the highest bit of the word's number becomes the bit of weight `width` of the bit's
// number, which becomes the lowest bit of the word's number. In `firsts` are the bits whose number
// has no bit of that weight.
fn round(words: &[u64; 64], width: u32, firsts: u64) -> [u64; 64]
    requires some { 0 < width }
    requires few { width < 64 }
    requires halves { IsFirstHalf width firsts }
    ensures { IsRound width words.now result }
{
    let mut new = [0; 64];
    for i in 0..32 {
        new[2 * i] = first_halves(words, i, width, firsts);
        new[2 * i + 1] = second_halves(words, i, width, firsts);
    }
    new
}

// The first halves of words i and i + 32.
#[inline]
fn first_halves(words: &[u64; 64], i: usize, width: u32, firsts: u64) -> u64
    requires inside { i < 32 }
    requires some { 0 < width }
    requires few { width < 64 }
    requires halves { IsFirstHalf width firsts }
    ensures { (k : ℕ) → k < 64
        → bit_at result k ≡ bit_at (slice_index words.now (i + 32 * (k / width % 2)))
        (k - width * (k / width % 2)) }
{
    words[i] & firsts | words[i + 32] << width & !firsts
}

// The second halves of words i and i + 32.
#[inline]
fn second_halves(words: &[u64; 64], i: usize, width: u32, firsts: u64) -> u64
    requires inside { i < 32 }
    requires some { 0 < width }
    requires few { width < 64 }
    requires halves { IsFirstHalf width firsts }
    ensures { (k : ℕ) → k < 64
        → bit_at result k ≡ bit_at (slice_index words.now (i + 32 * (k / width % 2)))
        (k - width * (k / width % 2) + width) }
{
    words[i] >> width & firsts | words[i + 32] & !firsts
}
