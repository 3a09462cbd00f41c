// What an image begins with.

// Version 1: 01, 04, and for each body its id, offset (two bytes, high first) and length.
pub(crate) const OLD: [u8; 18] = [1, 4, 1, 0, 18, 48, 2, 0, 66, 9, 3, 0, 75, 7, 4, 0, 82, 2];

// Version 2: 02, 05, and for each body the same.
pub(crate) const NEW: [u8; 22] = [
    2, 5, 1, 0, 22, 48, 2, 0, 70, 9, 3, 0, 79, 7, 4, 0, 86, 2, 5, 0, 88, 8,
];

// Of the Z8536: 03, 06, and for each body the same.
pub(crate) const POINTED: [u8; 26] = [
    3, 6, 1, 0, 26, 48, 2, 0, 74, 9, 3, 0, 83, 7, 4, 0, 90, 2, 5, 0, 92, 8, 6, 0, 100, 2,
];
