// The functions of the papers, document 01's marked cases among them, and some made or found by search; one a line, in the form that
// `line` describes.
pub const FUNCTIONS: [u8; 2825] = *b"\
m1 0 01 G -1\n\
m2 0 00 G 1\n\
m3 1 03 G -1 0\n\
m4 1 02 G 1 2\n\
m5 2 08 G 4 2 3\n\
m6 2 06 N 0 1 2 3\n\
m7 4 88f8 N 3 12 5 10\n\
m8 6 88e8a8e888e8e8ee G 17 9 8 5 4 3 2\n\
m10 3 ea G 2 2 1 1\n\
000-f1 5 a8e8e8e8 G 7 4 3 3 1 1\n\
000-f1-complement 5 57171717 G -6 -4 -3 -3 -1 -1\n\
000-f2 4 88f8 N 3 12 5 10\n\
000-f3 4 88a8 G 5 3 2 1 1\n\
000-f-positive 3 ea G 2 2 1 1\n\
000-f-original 3 d5 G 0 -2 1 1\n\
000-f4 6 80e8e8eaa8e8e8ea G 41 22 16 16 10 10 4\n\
000-f5 6 e8eee8eee8eeeaee G 9 7 6 3 3 1 1\n\
000-f5-other 6 e8eee8eee8eeeaee G 11 9 8 4 4 1 1\n\
000-f6 6 80e8e8ee88e8e8ee G 11 5 5 3 3 3 1\n\
000-onion1 1 02 G 1 1\n\
000-onion2 2 0e G 1 1 1\n\
000-onion3 3 e0 G 3 1 1 2\n\
000-onion4 4 e0ff G 3 1 1 2 3\n\
000-onion5 5 0000e0ff G 8 1 1 2 3 5\n\
000-onion6 6 0000e0ffffffffff G 8 1 1 2 3 5 8\n\
000-onion7 7 00000000000000000000e0ffffffffff G 21 1 1 2 3 5 8 13\n\
000-onion8 8 00000000000000000000e0ffffffffffffffffffffffffffffffffffffffffff G 21 1 1 2 3 5 8 13 21\n\
000-majion2 2 0e G 1 1 1\n\
000-majion3 3 e0 G 3 1 1 2\n\
000-majion4 4 e0ff G 3 1 1 2 3\n\
000-majion5 5 00e0e0ff G 6 1 1 2 3 3\n\
000-majion6 6 0000000000e0e0ff G 11 1 1 2 3 3 5\n\
000-majion7 7 0000000000e0e0ffffffffffffffffff G 11 1 1 2 3 3 5 11\n\
000-majion8 8 00000000000000000000000000e0e0ff0000000000e0e0ffffffffffffffffff G 22 1 1 2 3 3 5 11 11\n\
000-maj3 3 e8 G 2 1 1 1\n\
000-maj5 5 80e8e8fe G 3 1 1 1 1 1\n\
000-maj7 7 008080e880e8e8fe80e8e8fee8fefeff G 4 1 1 1 1 1 1 1\n\
001-and3 3 80 G 3 1 1 1\n\
001-or3 3 fe G 1 1 1 1\n\
002-and2 2 08 G 2 1 1\n\
002-or2 2 0e G 1 1 1\n\
002-211-3 3 a8 G 3 2 1 1\n\
002-121-3 3 c8 G 3 1 2 1\n\
002-112-3 3 e0 G 3 1 1 2\n\
002-111-2 3 e8 G 2 1 1 1\n\
002-211-2 3 ea G 2 2 1 1\n\
002-211-2-dual 3 a8 G 3 2 1 1\n\
003-fig1 6 88e8a8e888e8e8ee G 17 9 8 5 4 3 2\n\
003-s 7 80e8e8fee8eee8fe88e8e8fee8eeeefe G 17 8 8 6 6 5 3 1\n\
003-p 7 80e880e880e8e8ee80e888e880e8e8ee G 23 9 9 7 7 4 3 1\n\
003-551-10 3 88 G 10 5 5 1\n\
003-4444-16 4 0080 G 4 1 1 1 1\n\
004-fig2 6 a8a8a8aaa8aaa8aa G 11 8 3 3 2 1 1\n\
004-fig6c 4 8088 G 5 2 2 1 1\n\
004-fig7-rule 4 eaee G 3 3 2 1 1\n\
004-fig9 3 c8 G 3 1 2 1\n\
004-t6 3 ec G 2 1 2 1\n\
004-fig10c 4 eefe G 2 2 2 1 1\n\
004-fig11c 4 8088 G 5 2 2 1 1\n\
004-not 1 01 G 0 -1\n\
xor3 3 96 N 0 1 2 3\n\
12-34-56 6 88f888f888f8ffff N 3 6 9 12\n\
12-34-56-78 8 88f888f888f8ffff88f888f888f8ffff88f888f888f8ffffffffffffffffffff N 3 6 9 12\n\
true8 8 ffffffffffffffffffffffffffffffffffffffffffffffffffffffffffffffff G 0 0 0 0 0 0 0 0 0\n\
false8 8 0000000000000000000000000000000000000000000000000000000000000000 G 1 0 0 0 0 0 0 0 0\n\
slow8 8 000000000000a0a0000080808080a0a80080a0a0a0a8eaeaa0a0a8e8aafaffff N 217 222 225 230\n\
late8 8 008000a080e080e800a000a080e080f8a0f8a0faf8fef8ffa0faa0faf8fff8ff G 335 90 42 126 108 16 80 12 136\n\
loop5 5 a0a8e8f8 N 11 14 25 28\n\
loop6 6 808080a8e8faecfe N 27 30 42 44 49 50\n\
worst4 4 ff07 G -14 -2 -3 -5 -10\n\
worst4-loop 4 3f05 N 5 6 9 10\n\
nor8 8 0100000000000000000000000000000000000000000000000000000000000000 G 0 -1 -1 -1 -1 -1 -1 -1 -1\n";

// Partial tables: document 002's, an XOR with any one row left free, tables with few rows that are cared for or none, and some of the functions
// above with rows left free.
pub const PARTIAL: [u8; 1009] = *b"\
002-g4 3 e0/f7 G 2 1 1 1\n\
002-g4-before 3 e0/f7 G 3 1 1 2\n\
xor-but-row-0 2 06/0e G -1 -1 -1\n\
xor-but-row-1 2 04/0d G 1 -1 1\n\
xor-but-row-2 2 02/0b G 1 1 -1\n\
xor-but-row-3 2 06/07 G 1 1 1\n\
no-row-0 0 00/00 G 1\n\
no-row-2 2 00/00 G 0 0 0\n\
no-row-8 8 00/00 G 335 90 42 126 108 16 80 12 136\n\
true-row 2 08/08 G 2 1 1\n\
false-row 2 00/08 G 3 1 1\n\
q-below-0 3 16/17 G 1 1 1 1\n\
xor-of-half 3 06/0f N 0 1 2 3\n\
no-pair 4 0810/2814 N 3 12 5 10\n\
m7-but-six 4 8878/e87e N 3 5 10 12\n\
worst4-but-one 4 ff03/fffb G -7 0 -2 -2 -6\n\
loop6-but-three 6 00808028e8faecfe/7fffff7ffffffeff N 27 30 42 44 49 50\n\
s-but-four 7 80e8e8fee8eee8fe88e8e8fee8eeee7e/f7fffffffffffffffeffffffefffff7f G 17 8 8 6 6 5 3 1\n\
late8-but-forty 8 008000a0800080e8000000a080e080f0a0f8a0faf8dec8ffa0faa0daf8dee8f7/debffeffdf1bebfff70faeebfbfbfff6ffffbffaffdfcafffffffddfffdeeef7 G 138 39 19 52 44 8 33 2 54\n\
slow8-but-three 8 000000000000a0a0000080808080a0a80080a0a0a0a8eacaa0a0a8e8aafaffff/fffffffffffffffffdfffff7ffffffffffffffffffffffdfffffffffffffffff N 217 222 225 230\n";
