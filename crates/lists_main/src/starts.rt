// The jobs that lists start with: one a line, in the form that `list` describes; those of tables with every row cared for, then of others. The
// last two of both are sound jobs made by hand, close to the cap.
pub const STARTS: [u8; 1744] = *b"\
true 0 01 N 16 1 0 0\n\
false 0 00 N 16 100000 0 0\n\
m4 1 02 N 16 1 0 0\n\
and 2 08 N 24 1 0 0\n\
and 2 08 N 24 3 0 0\n\
and 2 08 N 24 100000 0 0\n\
binate 2 06 N 24 10 0 0\n\
xor3 3 96 N 40 10 0 0\n\
m10 3 ea N 40 1 0 0\n\
m7 4 88f8 N 60 1 0 0\n\
m7 4 88f8 N 60 7 0 0\n\
worst4 4 ff07 N 60 3 0 0\n\
loop5 5 a0a8e8f8 N 80 17 0 0\n\
m8 6 88e8a8e888e8e8ee N 100 12 0 0\n\
loop6 6 808080a8e8faecfe N 100 50 0 0\n\
s 7 80e8e8fee8eee8fe88e8e8fee8eeeefe N 120 9 0 0\n\
late8 8 008000a080e080e800a000a080e080f8a0f8a0faf8fef8ffa0faa0faf8fff8ff N 200 600 0 0\n\
slow8 8 000000000000a0a0000080808080a0a80080a0a0a0a8eaeaa0a0a8e8aafaffff N 200 1500 0 0\n\
slow8 8 000000000000a0a0000080808080a0a80080a0a0a0a8eaeaa0a0a8e8aafaffff N 200 100000 0 0\n\
far 2 08 O 40 1200 900000 524288 v 0 375712 c 0 375712\n\
late 2 08 O 40 30 999000 524288 v 0 474712 c 0 474712\n\
no-row 0 00/00 N 16 10 0 0\n\
no-row 2 00/00 N 24 100000 0 0\n\
one-row 1 02/02 N 16 1 0 0\n\
xor-but-row-0 2 06/0e N 24 1 0 0\n\
xor-but-row-3 2 06/07 N 24 1 0 0\n\
xor-of-half 3 06/0f N 40 10 0 0\n\
g4 3 e0/f7 N 40 1 0 0\n\
no-pair 4 0810/2814 N 60 1 0 0\n\
m7-but-six 4 8878/e87e N 60 1 0 0\n\
loop5-but-five 5 a0a868f8/eefd7eff N 80 17 0 0\n\
loop6-but-three 6 00808028e8faecfe/7fffff7ffffffeff N 100 30 0 0\n\
s-but-four 7 80e8e8fee8eee8fe88e8e8fee8eeee7e/f7fffffffffffffffeffffffefffff7f N 140 5 0 0\n\
late8-but-forty 8 008000a0800080e8000000a080e080f0a0f8a0faf8dec8ffa0faa0daf8dee8f7/debffeffdf1bebfff70faeebfbfbfff6ffffbffaffdfcafffffffddfffdeeef7 N 230 100 0 0\n\
slow8-but-ten 8 000000000000a0a000008080808020a80080a0a0a0a8eacaa0a028e8aafadeff/7fffffffffffffffffffffffffff7fff7fffffffbffffedffff77fffffffdeff N 230 200 0 0\n\
far-but-row-0 2 08/0e O 40 1200 900000 524288 v 1 -375712 v 0 375712 c 1 375712\n\
late-but-row-0 2 08/0e O 40 30 999000 524288 v 1 -474712 v 0 474712 c 1 474712\n";
