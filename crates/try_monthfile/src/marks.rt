//! Words and bytes are marked before they are lent, so that a line can say how many of them a call changed. No file and no table here
//! has a mark in it.
use std::alloc::{AllocError, Global};

pub(crate) const WORD: u64 = 777;

pub(crate) const BYTE: u8 = b'#';

// So many marked words or bytes, `most` at the most.
pub(crate) fn marked<T: Copy + Drop>(
    alloc: Global,
    mark: T,
    count: usize,
    most: usize,
) -> Result<Vec<T>, AllocError> {
    vec![in alloc; mark; count.min(most)]
}

// So many bytes from a place on, as far as they go.
pub(crate) fn part(bytes: &[u8], from: usize, size: usize) -> &[u8] {
    let start = from.min(bytes.len());
    let end = start + size.min(bytes.len() - start);
    &bytes[start..end]
}

// How many of some words or bytes are no longer the mark.
pub(crate) fn changed<T: PartialEq + Drop>(lent: &[T], mark: T) -> usize {
    lent.iter().filter(|entry| **entry != mark).count()
}

// How many bytes of one text stand at the same place in another.
pub(crate) fn same(bytes: &[u8], other: &[u8]) -> usize {
    bytes
        .iter()
        .zip(other)
        .filter(|(one, two)| one == two)
        .count()
}
