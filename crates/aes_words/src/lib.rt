// Four bytes in a machine word, the first in its lowest place; a block as four such words.
#![tactic(auto)]

ghost use Rattle.std.specs.Prelude.{◌≡◌, [], ◌∷◌};
ghost use Rattle.aes_words.specs.Block.{xor_block};
ghost use Rattle.aes_words.specs.Words.{word_bytes, words_bytes, block_words, state_bytes};

use std::array;

// Not by `from_le_bytes`: with it three hop MACs take 2.5 % longer; they are to be no slower than they were.
#[tactic(auto, using(crate::proofs::WordBytes::bytes_pack))]
pub fn word(byte0: u8, byte1: u8, byte2: u8, byte3: u8) -> u32
    ensures { word_bytes result ≡ byte0 ∷ byte1 ∷ byte2 ∷ byte3 ∷ [] }
{
    u32::from(byte0)
        + u32::from(byte1) * 0x100
        + u32::from(byte2) * 0x1_0000
        + u32::from(byte3) * 0x100_0000
}

#[tactic(auto, unfolding(crate::specs::Words::words_bytes, crate::specs::Words::block_words))]
pub fn words(block: [u8; 16]) -> [u32; 4]
    ensures { words_bytes result ≡ block_words block }
{
    let (chunks, _) = block.as_chunks::<4>();
    array::from_fn(|i| {
        let [byte0, byte1, byte2, byte3] = chunks[i];
        word(byte0, byte1, byte2, byte3)
    })
}

pub fn unwords(words: [u32; 4]) -> [u8; 16]
    ensures { result ≡ state_bytes words }
{
    array::from_fn(|i| words[i / 4].to_le_bytes()[i % 4])
}

// Two functions, this and cmac's `xor_block`. Tried: `xor<T: Copy + BitXor<Output = T>, const N: usize>`. It would be open, and ask its
// callers in a `requires` that T has `^`; its closure took three clauses, and what `from_fn` gives at a T stayed open.
pub fn xor_words(left: [u32; 4], right: [u32; 4]) -> [u32; 4]
    ensures { state_bytes result ≡ xor_block (state_bytes left) (state_bytes right) }
{
    array::from_fn(|i| left[i] ^ right[i])
}
