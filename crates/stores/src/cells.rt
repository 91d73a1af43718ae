//! What memory is made of: cells, each of so many bytes.
ghost use Rattle.std.specs.Prelude.{◌≡◌, ℕ, ◌*◌, ◌<◌, List, [], ◌∷◌, slice_index, slice_set};
ghost use Rattle.stores.specs.Words.{bytes_of, word_bytes};
ghost use Rattle.stores.specs.Cells.{InTurn, bytes_in_turn, words_in_turn};

/// A cell of memory, and the bytes that it holds, the most significant first.
pub trait Cell: Copy {
    /// How many bytes a cell holds.
    const SIZE: usize;

    ghost SIZE: { ℕ };

    /// How many bytes so many cells hold.
    ghost span: { ℕ → ℕ };

    /// The bytes of a cell.
    ghost one: { Self → List ℕ };

    /// The bytes of cells, one cell behind the other.
    ghost all: { List Self → List ℕ };

    fn byte(self, i: usize) -> u8
        requires { i < SIZE }
        ensures { result ≡ slice_index (one self) i };

    /// The cell with one of its bytes replaced.
    fn with_byte(self, i: usize, byte: u8) -> Self
        requires { i < SIZE }
        ensures { one result ≡ slice_set (one self) i byte };

    ghost in_turn: { InTurn SIZE span one all };
}

impl Cell for u8 {
    const SIZE: usize = 1;

    ghost SIZE = { 1 };

    ghost span = { λ n. n };

    ghost one = { λ byte. byte ∷ [] };

    ghost all = { λ bytes. bytes };

    ghost in_turn = { bytes_in_turn };

    fn byte(self, _i: usize) -> u8 {
        self
    }

    fn with_byte(self, _i: usize, byte: u8) -> u8 {
        byte
    }
}

impl Cell for u32 {
    const SIZE: usize = 4;

    ghost SIZE = { 4 };

    ghost span = { λ n. 4 * n };

    ghost one = { word_bytes };

    ghost all = { bytes_of };

    ghost in_turn = { words_in_turn };

    fn byte(self, i: usize) -> u8 {
        self.to_be_bytes()[i]
    }

    fn with_byte(self, i: usize, byte: u8) -> u32 {
        let mut row = self.to_be_bytes();
        row[i] = byte;
        u32::from_be_bytes(row)
    }
}
