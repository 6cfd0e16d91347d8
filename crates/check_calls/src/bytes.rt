// Bytes whose number a seed chooses, without a heap.

// So many bytes at the start of an array.
#[derive(Clone, Copy)]
pub struct Bytes<const N: usize> {
    all: [u8; N],
    length: usize,
}

impl<const N: usize> Bytes<N> {
    // So many zeros, at most N.
    pub fn zeros(length: usize) -> Self {
        Self {
            all: [0; N],
            length,
        }
    }

    pub fn as_slice(&self) -> &[u8] {
        &self.all[..self.length.min(N)]
    }

    pub fn as_mut_slice(&mut self) -> &mut [u8] {
        &mut self.all[..self.length.min(N)]
    }
}
