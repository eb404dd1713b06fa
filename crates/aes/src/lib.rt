// AES-128's cipher, FIPS 197, section 5.1, equal to its definition on all inputs. The state goes by the words of its columns.
#![tactic(auto)]

mod tables;

ghost use Rattle.std.specs.Prelude.{◌≡◌, ℕ, ◌/◌, ◌%◌, ◌^◌, ◌<◌, List};
ghost use Rattle.aes_words.specs.Block.{xor_block};
ghost use Rattle.aes_words.specs.Words.{word_bytes, state_bytes};
ghost use Rattle.aes.specs.Cipher.{cipher};
ghost use Rattle.aes.specs.ByTable.{round_table, entry_of, substituted_by, column_by, last_column_by, columns, round_by, last_round_by, cipher_by};

use aes_words::{unwords, word, words, xor_words};

// The table that `encrypt_with` is lent: for each byte its substitution value S as 2 S, S, S, 3 S. Flat, as a byte string gives it and as
// `ByTable` reads it: `[[u8; 4]; 256]` would be 256 lists of four to write, and another type and meaning of what contracts up to
// validator's cite.
pub fn round_table() -> [u8; 1024]
    ensures { result ≡ round_table }
{
    tables::ROUND_TABLE
}

fn entry(table: &[u8; 1024], byte: u8) -> u32
    ensures { word_bytes result ≡ entry_of table.now byte }
{
    let at = 4 * usize::from(byte);
    word(table[at], table[at + 1], table[at + 2], table[at + 3])
}

// A column of a full round before its key, from the four old columns from its own on.
#[tactic(auto, unfolding(crate::specs::ByTable::column_by), using(crate::proofs::FastCipher::by_column))]
fn column(table: &[u8; 1024], word0: u32, word1: u32, word2: u32, word3: u32) -> u32
    ensures { word_bytes result
        ≡ column_by table.now (word0 % 256) (word1 / 256 % 256) (word2 / 65536 % 256) (word3 / 16777216 % 256) }
{
    entry(table, word0.to_le_bytes()[0])
        ^ entry(table, word1.to_le_bytes()[1]).rotate_left(8)
        ^ entry(table, word2.to_le_bytes()[2]).rotate_left(16)
        ^ entry(table, word3.to_le_bytes()[3]).rotate_left(24)
}

// A round by what makes a column: each from the four old columns from its own on, and then the key.
fn round_with<F: Fn(&[u8; 1024], u32, u32, u32, u32) -> u32>(
    column: F,
    table: &[u8; 1024],
    state: [u32; 4],
    round_key: [u8; 16],
) -> [u32; 4]
    ghost by: { ℕ → ℕ → ℕ → ℕ → List ℕ }
    requires callable { F.IsAlwaysCallable column }
    requires answers { (a b c d r : ℕ) → a < 2 ^ 32 → b < 2 ^ 32 → c < 2 ^ 32 → d < 2 ^ 32 → F.post column table a b c d r
        → word_bytes r ≡ by (a % 256) (b / 256 % 256) (c / 65536 % 256) (d / 16777216 % 256) }
    ensures { state_bytes result ≡ xor_block (columns by (state_bytes state)) round_key }
{
    let [word0, word1, word2, word3] = state;
    let columns = [
        column(table, word0, word1, word2, word3),
        column(table, word1, word2, word3, word0),
        column(table, word2, word3, word0, word1),
        column(table, word3, word0, word1, word2),
    ];
    xor_words(columns, words(round_key))
}

#[tactic(auto, unfolding(crate::specs::ByTable::round_by))]
fn round(table: &[u8; 1024], state: [u32; 4], round_key: [u8; 16]) -> [u32; 4]
    ensures { state_bytes result ≡ round_by table.now (state_bytes state) round_key }
{
    round_with(column, table, state, round_key)
}

fn substituted(table: &[u8; 1024], byte: u8) -> u8
    ensures { result ≡ substituted_by table.now byte }
{
    table[4 * usize::from(byte) + 1]
}

// A column of the last round, which does not mix.
#[tactic(auto, unfolding(crate::specs::ByTable::last_column_by))]
fn last_column(table: &[u8; 1024], word0: u32, word1: u32, word2: u32, word3: u32) -> u32
    ensures { word_bytes result
        ≡ last_column_by table.now (word0 % 256) (word1 / 256 % 256) (word2 / 65536 % 256) (word3 / 16777216 % 256) }
{
    word(
        substituted(table, word0.to_le_bytes()[0]),
        substituted(table, word1.to_le_bytes()[1]),
        substituted(table, word2.to_le_bytes()[2]),
        substituted(table, word3.to_le_bytes()[3]),
    )
}

#[tactic(auto, unfolding(crate::specs::ByTable::last_round_by))]
fn last_round(table: &[u8; 1024], state: [u32; 4], round_key: [u8; 16]) -> [u8; 16]
    ensures { result ≡ last_round_by table.now (state_bytes state) round_key }
{
    unwords(round_with(last_column, table, state, round_key))
}

// The cipher with a lent table, of a block by its words. The rounds are written out: with a loop over `&round_keys[1..10]` a hop MAC takes
// 2.3 % longer, and three take 2.6 % longer; they are to be no slower than they were.
#[tactic(auto, unfolding(crate::specs::ByTable::cipher_by, crate::specs::ByTable::rounds_by), using(crate::proofs::FastCipher::by_round))]
pub fn encrypt_words(table: &[u8; 1024], round_keys: [[u8; 16]; 11], block: [u32; 4]) -> [u8; 16]
    ensures { result ≡ cipher_by table.now round_keys (state_bytes block) }
{
    let state = xor_words(block, words(round_keys[0]));
    let state = round(table, state, round_keys[1]);
    let state = round(table, state, round_keys[2]);
    let state = round(table, state, round_keys[3]);
    let state = round(table, state, round_keys[4]);
    let state = round(table, state, round_keys[5]);
    let state = round(table, state, round_keys[6]);
    let state = round(table, state, round_keys[7]);
    let state = round(table, state, round_keys[8]);
    let state = round(table, state, round_keys[9]);
    last_round(table, state, round_keys[10])
}

// The cipher with a lent table. With `round_table()` it is AES.
#[tactic(auto, using(crate::proofs::FastCipher::cipher_words))]
pub fn encrypt_with(table: &[u8; 1024], round_keys: [[u8; 16]; 11], block: [u8; 16]) -> [u8; 16]
    ensures { result ≡ cipher_by table.now round_keys block }
{
    encrypt_words(table, round_keys, words(block))
}

#[tactic(auto, using(crate::proofs::FastCipher::cipher_by_table))]
pub fn encrypt_block(round_keys: [[u8; 16]; 11], block: [u8; 16]) -> [u8; 16]
    ensures { result ≡ cipher round_keys block }
{
    let table = round_table();
    encrypt_with(&table, round_keys, block)
}
