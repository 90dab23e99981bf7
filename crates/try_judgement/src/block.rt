//! The words of a month, in parts by their numbers in an answer: 0 the head, 1 to 6 and 10 the tables, 7 and 8 the outputs; 9 is none. What
//! a part can't have is passed over.
use std::alloc::{AllocError, Global};
use tables::{
    ACCOUNT_WIDTH, FIRM_WIDTH, LOAD_WIDTH, OWNER_WIDTH, RESERVATION_WIDTH, UNIT_WIDTH, ZONE_WIDTH,
};

const PARTS: usize = 11;

// The most words of a part: a firm reservation more than there may be.
pub(crate) const MOST_WORDS: usize = 4_965;

// How many entries a row of each part has.
const WIDTHS: [usize; PARTS] = [
    FIRM_WIDTH,
    ZONE_WIDTH,
    OWNER_WIDTH,
    UNIT_WIDTH,
    ACCOUNT_WIDTH,
    LOAD_WIDTH,
    RESERVATION_WIDTH,
    FIRM_WIDTH,
    FIRM_WIDTH,
    FIRM_WIDTH,
    FIRM_WIDTH,
];

// So many words, all 0, or one more than a part may have.
pub(crate) fn zeros(alloc: Global, count: usize) -> Result<Vec<u64>, AllocError> {
    vec![in alloc; 0; count.min(MOST_WORDS + 1)]
}

#[derive(Drop)]
pub(crate) struct Block {
    parts: Vec<Vec<u64>>,
}

impl Block {
    pub(crate) fn new(alloc: Global) -> Result<Block, AllocError> {
        let mut parts = Vec::with_capacity(alloc, PARTS)?;
        for _ in 0..PARTS {
            parts.push(Vec::new(alloc))?;
        }
        Ok(Block { parts })
    }

    // The words of a part, none where there are too many.
    pub(crate) fn part(&self, part: usize) -> &[u64] {
        match self.parts.get(part) {
            Some(words) if words.len() <= MOST_WORDS => words,
            _ => &[],
        }
    }

    // Gives a part other words.
    pub(crate) fn set_part(&mut self, part: usize, words: Vec<u64>) {
        if let Some(old) = self.parts.get_mut(part) {
            *old = words;
        }
    }

    // Gives a row's entry in a column, each from 0, another number.
    pub(crate) fn set_entry(&mut self, part: usize, row: usize, column: usize, entry: u64) {
        if MOST_WORDS <= row || MOST_WORDS <= column {
            return;
        }
        let width = WIDTHS.get(part).copied().unwrap_or(FIRM_WIDTH);
        if let Some(words) = self.parts.get_mut(part)
            && let Some(word) = words.get_mut(row * width + column)
        {
            *word = entry;
        }
    }
}
