// AES-128's key expansion, FIPS 197, section 5.2, equal to its definition on all inputs.
#![tactic(auto)]

ghost use Rattle.std.specs.Prelude.{◌≡◌, [], ◌∷◌};
ghost use Rattle.aes_sbox.specs.Field.{s_box, sub_byte};
ghost use Rattle.aes_words.specs.Words.{word_bytes, words_bytes};
ghost use Rattle.aes_keys.specs.KeyExpansion.{rot_word, sub_word, round_keys};
ghost use Rattle.aes_keys.specs.Inner.{next_words};

use aes_words::{unwords, word, words};

// The constants of rounds 1 to 10, at their numbers.
const RCON: [u8; 11] = *b"\x00\x01\x02\x04\x08\x10\x20\x40\x80\x1b\x36";

// The lent S-box.
#[derive(Clone, Copy)]
struct SBox<'a> {
    table: &'a [u8; 256],
    ghost is_s_box: { table.now ≡ s_box },
}

impl<'a> SBox<'a> {
    #[tactic(auto, unfolding(aes_sbox::specs::Field::sub_byte))]
    fn sub_byte(self, byte: u8) -> u8
        ensures { result ≡ sub_byte byte }
    {
        self.table[usize::from(byte)]
    }

    // SubWord(RotWord(last)).
    #[tactic(auto, unfolding(crate::specs::KeyExpansion::sub_word, crate::specs::KeyExpansion::rot_word, // and what the bytes are
    aes_words::specs::Words::word_bytes))]
    fn rot_sub_word(self, last: u32) -> u32
        ensures { word_bytes result ≡ sub_word (rot_word (word_bytes last)) }
    {
        let [byte0, byte1, byte2, byte3] = last.to_le_bytes();
        word(
            self.sub_byte(byte1),
            self.sub_byte(byte2),
            self.sub_byte(byte3),
            self.sub_byte(byte0),
        )
    }

    // The next round key. The old words are summed first: the substituted word comes late.
    #[tactic(auto, using(crate::proofs::NextWords::next_words_law))]
    fn next_words(self, key: [u32; 4], rcon: u8) -> [u32; 4]
        ensures { words_bytes result ≡ next_words (rcon ∷ 0 ∷ 0 ∷ 0 ∷ []) (words_bytes key) }
    {
        let temp = self.rot_sub_word(key[3]) ^ u32::from(rcon);
        let sum1 = key[1] ^ key[0];
        let sum2 = key[2] ^ sum1;
        let sum3 = key[3] ^ sum2;
        [key[0] ^ temp, sum1 ^ temp, sum2 ^ temp, sum3 ^ temp]
    }

    fn expand(self, key: [u8; 16]) -> [[u8; 16]; 11]
        ensures { result ≡ round_keys key }
    {
        let rcon = RCON;
        let mut round_keys = [key; 11];
        let mut last = words(key);
        // By the number of the round, which is the place in both arrays. Tried: `round_keys[1..].iter_mut().zip(&rcon[1..])`: in that loop
        // the proof has no name for what is written, and what the array ends as stays open.
        for i in 1..11 {
            // Two steps: the borrow checker does not yet cover a call whose result is laid in an array that it is given.
            let next = self.next_words(last, rcon[i]);
            last = next;
            round_keys[i] = unwords(last);
        }
        round_keys
    }
}

// The eleven round keys of a key.
pub fn expand_key(key: [u8; 16]) -> [[u8; 16]; 11]
    ensures { result ≡ round_keys key }
{
    let table = aes_sbox::sbox();
    SBox { table: &table }.expand(key)
}
