//! Numbers of 13 bits, so that stamps run out.

use sparse_ordering::words::Word;

#[derive(Clone, Copy)]
pub(crate) struct Narrow(u16);

impl Word for Narrow {
    fn greatest() -> usize {
        0x1fff
    }

    fn of(number: usize) -> Narrow {
        Narrow((number & 0x1fff) as u16)
    }

    fn get(self) -> usize {
        self.0 as usize
    }
}
