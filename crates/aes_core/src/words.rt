//! Bytes in words of 32 bits, the lowest byte first.

ghost use Rattle.std.specs.Prelude.{◌≡◌, ◌≤◌, ◌+◌, length, take, drop};
ghost use Rattle.std.specs.Int.{w32, to_le_bytes};
ghost use Rattle.octets.specs.Bytes.{xor_bytes};
ghost use Rattle.aes_core.specs.Words.{bytes_of};

/// A state: a word for each column, the byte of row 0 lowest (FIPS 197, 3.4).
pub type State = [u32; 4];

/// The word of the four bytes from a place on.
#[inline(always)]
pub fn word_at(bytes: &[u8], place: usize) -> u32
    requires { place + 4 ≤ length bytes.now }
    ensures { to_le_bytes w32 result ≡ take 4 (drop place bytes.now) }
{
    let mut word = [0; 4];
    word.copy_from_slice(&bytes[place..place + 4]);
    u32::from_le_bytes(word)
}

/// The state of a block.
#[inline(always)]
pub fn state_of(block: &[u8; 16]) -> State
    ensures { bytes_of result ≡ block.now }
{
    [
        word_at(block, 0),
        word_at(block, 4),
        word_at(block, 8),
        word_at(block, 12),
    ]
}

/// The block of a state.
#[inline(always)]
pub fn block_of(state: State) -> [u8; 16]
    ensures { result ≡ bytes_of state }
{
    let [w0, w1, w2, w3] = state;
    let [a0, a1, a2, a3] = w0.to_le_bytes();
    let [b0, b1, b2, b3] = w1.to_le_bytes();
    let [c0, c1, c2, c3] = w2.to_le_bytes();
    let [d0, d1, d2, d3] = w3.to_le_bytes();
    [
        a0, a1, a2, a3, b0, b1, b2, b3, c0, c1, c2, c3, d0, d1, d2, d3,
    ]
}

/// The exclusive or of two states.
#[inline(always)]
pub fn xor_states(x: State, y: State) -> State
    ensures { bytes_of result ≡ xor_bytes (bytes_of x) (bytes_of y) }
{
    let [x0, x1, x2, x3] = x;
    let [y0, y1, y2, y3] = y;
    [x0 ^ y0, x1 ^ y1, x2 ^ y2, x3 ^ y3]
}
