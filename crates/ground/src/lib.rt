// What several layers need of bytes, once.
#![tactic(auto)]

ghost use Rattle.std.specs.Prelude.{◌≡◌, ◌+◌, ◌≤◌, get_or, length};
ghost use Rattle.ground.specs.Bytes.{padded};
ghost use Rattle.ground.specs.Bytes as bytes;
ghost use Rattle.ground.specs.Word.{Word, word_bytes};

// The bytes of a word.
pub const WORD_BYTES: usize = 8;

// Byte i, 0 past the end.
pub fn byte_at(s: &[u8], i: usize) -> u8
    ensures { result ≡ get_or s.now i 0 }
{
    s.get(i).copied().unwrap_or(0)
}

// The eight bytes from `at` on, the first the least, which a compiler reads at once.
pub fn word(s: &[u8], at: usize) -> u64
    requires { at + word_bytes ≤ length s.now }
    ensures { Word s.now at result }
{
    u64::from_le_bytes([
        s[at],
        s[at + 1],
        s[at + 2],
        s[at + 3],
        s[at + 4],
        s[at + 5],
        s[at + 6],
        s[at + 7],
    ])
}

// Whether bytes i up to, not including, e are 0, one by one.
fn blank_bytes(s: &[u8], i: usize, e: usize) -> bool
    ensures { result ≡ bytes.blank s.now i e }
{
    for j in i..e {
        if byte_at(s, j) != 0 {
            return false;
        }
    }
    true
}

// Whether bytes i up to, not including, e are 0: word by word, as far as there are whole words.
pub fn blank(s: &[u8], i: usize, e: usize) -> bool
    ensures { result ≡ bytes.blank s.now i e }
{
    for j in (i..e).step_by(WORD_BYTES) {
        if e - j < WORD_BYTES {
            return blank_bytes(s, j, e);
        }
        if s.len() < j + WORD_BYTES {
            return blank_bytes(s, j, e);
        }
        if word(s, j) != 0 {
            return false;
        }
    }
    true
}

// Writes src, as far as there is room, and zeros behind it.
pub fn fill(dst: &mut [u8], src: &[u8])
    ensures { dst.new ≡ padded (length dst.old) src.now }
{
    for i in 0..dst.len() {
        dst[i] = byte_at(src, i);
    }
}
