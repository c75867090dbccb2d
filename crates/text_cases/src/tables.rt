// Damaged texts, each with the number, the layer, the line and the field of its refusal as a user is told them, and texts with
// their number of items.
pub type Refused<'t> = (&'t [u8], [usize; 4]);

// A byte outside 32 to 126.
pub const BAD_BYTES: [Refused; 6] = [
    (b"1\nL 5\n\x1f\n", [1, 1, 3, 0]),
    (b"1\nL 5\x7f\n", [1, 1, 2, 0]),
    (b"1\r\nL 5\r\n1\r\na 1 1\r\n", [1, 1, 1, 0]),
    (b"1\nL\t5\n", [1, 1, 2, 0]),
    (b"\xff\n", [1, 1, 1, 0]),
    (b"1\nL 5\n1\na 1 1\x00\n", [1, 1, 4, 0]),
];

// A field that is no decimal number, or is above the largest.
pub const NO_NUMBERS: [Refused; 11] = [
    (b"01\n", [2, 1, 1, 1]),
    (b"00\n", [2, 1, 1, 1]),
    (b"+1\n", [2, 1, 1, 1]),
    (b"x\n", [2, 1, 1, 1]),
    (b"1\nL 1000000001\n", [2, 1, 2, 2]),
    (b"1\nL 99999999999999999999\n", [2, 1, 2, 2]),
    (b"1\nV 0 0 0 1000000001\n", [2, 1, 2, 5]),
    (b"2\nC 1\nN -1\n", [2, 1, 3, 2]),
    (b"1\nL 5\n1\na 1000000001 1\n", [2, 1, 4, 2]),
    (b"1\nL 5\n1\na 1 01\n", [2, 1, 4, 3]),
    (b"1\nL 5\n1\na 00 x\n", [2, 1, 4, 2]),
];

// Too few or too many fields, or an empty one; this comes before what the fields hold.
pub const WRONG_FIELD_COUNTS: [Refused; 12] = [
    (b"\n", [3, 2, 1, 0]),
    (b"1 1\n", [3, 2, 1, 0]),
    (b"1\nL\n", [3, 2, 2, 0]),
    (b"1\nL 5 \n", [3, 2, 2, 0]),
    (b"1\nL  5\n", [3, 2, 2, 0]),
    (b"1\nL x y\n", [3, 2, 2, 0]),
    (b"1\nV 1 2 3\n", [3, 2, 2, 0]),
    (b"1\nV 1 2 3 4 5\n", [3, 2, 2, 0]),
    (b"1\nL 5\n1\na 1\n", [3, 2, 4, 0]),
    (b"1\nL 5\n1\n a 1 1\n", [3, 2, 4, 0]),
    (b"1\nL 5\n1\na  1 1\n", [3, 2, 4, 0]),
    (b"1\nV 1 1 1 1\n1\na 1 1\n", [3, 2, 4, 0]),
];

// A limit line whose first field is no letter that may stand there; this comes before the number of its fields.
pub const UNKNOWN_LETTERS: [Refused; 10] = [
    (b"1\nX 5\n", [4, 2, 2, 1]),
    (b"1\nX 5 5 5\n", [4, 2, 2, 1]),
    (b"1\nN 5\n", [4, 2, 2, 1]),
    (b"1\nl 5\n", [4, 2, 2, 1]),
    (b"1\nLL 5\n", [4, 2, 2, 1]),
    (b"1\n5\n", [4, 2, 2, 1]),
    (b"1\n\n", [4, 2, 2, 1]),
    (b"1\n L 5\n", [4, 2, 2, 1]),
    (b"2\nL 5\nL 5\n", [4, 2, 3, 1]),
    (b"2\nC 1\nV 1 1 1 1\n", [4, 2, 3, 1]),
];

// A count, a limit or a demand outside its range.
pub const OUT_OF_RANGE: [Refused; 11] = [
    (b"0\n", [5, 2, 1, 1]),
    (b"3\n", [5, 2, 1, 1]),
    (b"1\nL 0\n", [5, 2, 2, 2]),
    (b"1\nC 65\n", [5, 2, 2, 2]),
    (b"2\nL 1\nN 0\n", [5, 2, 3, 2]),
    (b"2\nL 1\nN 100001\n", [5, 2, 3, 2]),
    (b"1\nL 5\n0\n", [5, 2, 3, 1]),
    (b"1\nL 5\n65\n", [5, 2, 3, 1]),
    (b"1\nL 5\n1\na 1 0\n", [5, 2, 4, 3]),
    (b"1\nL 5\n1\na 1 4096\n", [5, 2, 4, 3]),
    (b"1\nV 0 0 0 0\n1\na 1 2 3 4 1000000000\n", [5, 2, 4, 6]),
];

// A name that is too long, begins with a digit or was there before; this comes before the other fields.
pub const BAD_NAMES: [Refused; 6] = [
    (b"1\nL 5\n1\nabcdefghijklmnopq 1 1\n", [6, 2, 4, 1]),
    (b"1\nL 5\n1\n1a x 0\n", [6, 2, 4, 1]),
    (b"1\nL 5\n1\n0 1 1\n", [6, 2, 4, 1]),
    (b"1\nL 5\n1\n9~ 1 1\n", [6, 2, 4, 1]),
    (b"1\nL 5\n2\na 1 1\na 2 1\n", [6, 2, 5, 1]),
    (b"2\nL 5\nN 2\n3\na 1 1\nb 1 1\na 1 1\n", [6, 2, 7, 1]),
];

// A text that is empty or without its last line feed; this comes before all else.
pub const MALFORMED: [Refused; 4] = [
    (b"", [8, 3, 0, 0]),
    (b"1", [8, 3, 0, 0]),
    (b"1\nL 5\n1\na 1 1", [8, 3, 0, 0]),
    (b"\xff", [8, 3, 0, 0]),
];

// A text that ends early, or goes on, whatever the bytes of the line too many.
pub const WRONG_LINE_COUNTS: [Refused; 9] = [
    (b"1\n", [9, 3, 2, 0]),
    (b"1\nL 5\n", [9, 3, 3, 0]),
    (b"2\nL 5\n", [9, 3, 3, 0]),
    (b"1\nL 5\n1\n", [9, 3, 4, 0]),
    (b"1\nL 5\n2\na 1 1\n", [9, 3, 5, 0]),
    (b"1\nL 5\n1\na 1 1\nb 1 1\n", [9, 3, 5, 0]),
    (b"1\nL 5\n1\na 1 1\n\n", [9, 3, 5, 0]),
    (b"1\nL 5\n1\na 1 1\n\x1f\n", [9, 3, 5, 0]),
    (b"2\nL 5\nN 1\n1\na 1 1\na 1 1\n", [9, 3, 6, 0]),
];

// Texts that spell an instance, at the edges of the ranges.
pub const SPELLED: [(&[u8], usize); 6] = [
    (b"1\nL 1\n1\na 0 1\n", 1),
    (b"1\nL 1000000000\n1\nabcdefghijklmnop 1000000000 4095\n", 1),
    (b"1\nV 0 0 0 1000000000\n1\n~ 0 0 0 1000000000 1\n", 1),
    (b"1\nC 64\n2\n! 64 1\nA1 0 1\n", 2),
    (b"2\nC 0\nN 1\n1\nred 5 1\n", 1),
    (b"2\nL 5\nN 100000\n3\na 1 1\nb 1 1\nab 1 1\n", 3),
];
