// The header's places and fixed values, as they stand on the card.

// L7: the bytes of the header, where block 0 starts.
pub const HEAD_LENGTH: usize = 87;

// L11: where the shift stands.
pub const SHIFT: usize = 25;

// L12: where the bytes of an index stand.
pub const INDEX_WIDTH: usize = 26;

// L13: where the first-free field stands.
pub const FIRST_FREE: usize = 27;

// L14: where the fixed values after the first-free field start.
pub const STREAM: usize = 35;

// L16: where the table's descriptor stands.
pub const TABLE: usize = 45;

// L17: where the filing header starts.
pub const FILING: usize = 70;

// L23: the least shift that is allowed.
pub const LEAST_SHIFT: usize = 6;

// L23: the most.
pub const MOST_SHIFT: usize = 12;

// L8 to L10: before the shift. What the layers are, and their versions.
pub const FIRST: [u8; 25] = [
    0x59, 0x41, 0x4b, 0x31, 1, 87, 0, 7, 0, 0x6d, 0x65, 0x6d, 0x6f, 0x72, 0x79, 1, 18, 0, 0x62,
    0x6c, 0x6f, 0x63, 0x6b, 0x73, 1,
];

// L12: the bytes of an index.
pub const SECOND: [u8; 1] = [4];

// L14, L15: after the first-free field.
pub const THIRD: [u8; 10] = [0, 32, 0, 0x73, 0x74, 0x72, 0x65, 0x61, 0x6d, 1];

// L17, L18: after the table's descriptor.
pub const FOURTH: [u8; 17] = [
    15, 0, 0x66, 0x69, 0x6c, 0x69, 0x6e, 0x67, 1, 0, 0, 0, 0, 0, 0, 0, 0,
];
