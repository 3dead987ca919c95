// A card with a module file on it.
use library::{to_bytes, with_check_words};
use std::alloc::{AllocError, Global};

// What stands on the card before the file.
const HEADER: [u32; 4] = [0x5452_4159, 1, 16, 2];

const GROUPS: [[u32; 8]; 2] = [
    [
        0xffff_ffff,
        0xaa99_5566,
        0x2000_0000,
        0x3000_8001,
        0x0000_0007,
        0x3001_8001,
        0x0372_7093,
        0x3000_2001,
    ],
    [
        0x0040_0d00,
        0x3000_4065,
        0x89ab_cdef,
        0x0123_4567,
        0xdead_beef,
        0x3000_8001,
        0x0000_000d,
        0x2000_0000,
    ],
];

// A new word for place 6 of the file, and with it the check word of its group.
pub(crate) const NEW_WORD: u32 = 0x0362_d093;

pub(crate) const NEW_CHECK_WORD: u32 = 0x4605_5a0c;

// The header, and behind it the file with its check words.
pub(crate) fn card_bytes(heap: Global) -> Result<Vec<u8>, AllocError> {
    let file = with_check_words(heap, &GROUPS)?;
    let mut words = Vec::new(heap);
    words.extend_from_slice(&HEADER)?;
    words.extend_from_slice(file.as_slice())?;
    to_bytes(heap, words.as_slice())
}
