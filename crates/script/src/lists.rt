// Buffers of a fixed size, of which a part is set.
ghost use Rattle.std.specs.Prelude.{◌≤◌};

use crate::text::read_list;

// Numbers, of which the first `len` are set.
#[derive(Drop)]
pub struct List<const N: usize> {
    numbers: [u32; N],
    len: usize,
    ghost within: { len ≤ N },
}

impl<const N: usize> List<N> {
    pub fn new() -> Self {
        List {
            numbers: [0; N],
            len: 0,
        }
    }

    // The numbers that are set.
    pub fn set(&self) -> &[u32] {
        &self.numbers[..self.len]
    }

    pub fn read(&mut self, arguments: &[u8]) {
        self.len = read_list(arguments, &mut self.numbers);
    }

    // Sets the first numbers of another list, as far as there is room.
    pub fn copy(&mut self, from: &[u32], len: usize) {
        let len = len.min(from.len()).min(N);
        self.numbers[..len].copy_from_slice(&from[..len]);
        self.len = len;
    }
}

// The bytes of a column file or of what is played.
pub const FILE_BYTES: usize = 21100;

#[derive(Drop)]
pub struct File {
    bytes: [u8; FILE_BYTES],
    len: usize,
}

impl File {
    pub fn new() -> Self {
        File {
            bytes: [0; FILE_BYTES],
            len: 0,
        }
    }

    pub fn set(&self) -> &[u8] {
        &self.bytes[..self.len.min(FILE_BYTES)]
    }

    // Sets the first `len` bytes of a text, nothing where there are no more or no room; gives how many.
    pub fn copy(&mut self, from: &[u8], len: usize) -> usize {
        let len = if len <= from.len() && len <= FILE_BYTES {
            len
        } else {
            0
        };
        self.bytes[..len].copy_from_slice(&from[..len]);
        self.len = len;
        len
    }
}
