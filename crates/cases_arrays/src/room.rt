// The arrays that a search is lent, and what it wrote.
use test_differences::difference;
use test_differences::difference::Difference;
use test_inputs::arrays;

// A text of ten values.
pub(crate) const TEXT: [i32; 10] = [4, 2, 3, 1, 5, 0, 1, 2, 4, 3];

// A hit array and a second array, of which a search is lent so many words and values.
#[derive(Clone, Copy)]
pub(crate) struct Room {
    pub(crate) words: usize,
    pub(crate) values: usize,
    pub(crate) hits: [u32; 8],
    pub(crate) rises: [i32; 8],
}

impl Room {
    // Arrays that hold what arrays hold before.
    pub(crate) fn lend(words: usize, values: usize) -> Self {
        Room {
            words: words.min(8),
            values: values.min(8),
            hits: [arrays::BEFORE; 8],
            rises: [test_rises::BEFORE; 8],
        }
    }

    // Hits and rises are expected to begin the arrays, which else hold what they held before.
    pub(crate) fn expect(&self, want: &[u32], rise: &[i32]) -> Option<Difference> {
        difference::expect_written(want, &self.hits).or(test_rises::expect_front(rise, &self.rises))
    }
}
