// The marks: a bit for each block of 64 places.
ghost use Rattle.std.specs.Prelude.{◌≡◌, ◌<◌};
ghost use Rattle.lists.specs.Prelude.{replicate};
ghost use Rattle.filter_passes.specs.Passes.{is_marked, MarkedIf};

#[derive(Clone, Copy)]
pub struct Marks {
    pub words: [u64; 256],
}

impl Marks {
    // No block is marked.
    pub fn new() -> Marks
        ensures { result.words ≡ replicate 256 0 }
    {
        Marks { words: [0; 256] }
    }

    // Whether the block is marked.
    pub(crate) fn is_marked(&self, block: usize) -> bool
        requires { block < 16384 }
        ensures { result ≡ is_marked self.now.words block }
    {
        bit_sets::has(self.words[block / 64], block % 64)
    }

    // Marks the block of place p if the set is not empty.
    pub(crate) fn mark_if(&mut self, p: usize, found: u64)
        requires { p < 1048576 }
        ensures { MarkedIf self.old.words self.new.words p found }
    {
        if found != 0 {
            let block = p / 64;
            let word = block / 64;
            self.words[word] = bit_sets::with_bit(self.words[word], block % 64);
        }
    }
}
