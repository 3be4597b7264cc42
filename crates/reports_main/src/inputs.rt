// The inputs, one a line, in the form that `input` describes.

// Whole records: gates of each n, of n 0 and of negative size, witnesses with counts of one and two digits and on the highest rows, and a
// job that stays open, alone and beside others.
pub const WHOLE: [u8; 884] = *b"\
empty\n\
nine-bytes 1 010208010206010102\n\
n-0 1 010001010000\n\
idle 1 010103010100\n\
negative-size 1 010101\n\
each-n 1 0100010101020102080103ea0104e0ff0105a8e8e8e8010688e8a8e888e8e8ee\
010780e8e8fee8eee8fe88e8e8fee8eeeefe\
0108008000a080e080e800a000a080e080f8a0f8a0faf8fef8ffa0faa0faf8fff8ff\n\
falling 1 0103d50104ff07010557171717\n\
s-and-p 1 010780e8e8fee8eee8fe88e8e8fee8eeeefe010780e880e880e8e8ee80e888e880e8e8ee\n\
binate 1 010206010396\n\
looped 1 010488f80105a0a8e8f80106808080a8e8faecfe\n\
counts 1 0105a8e8a8ff01060080c0e000ffc0ff010700f000ff00f000ff00f080ffaafaeaff\n\
open 1 0108000000000000a0a0000080808080a0a80080a0a0a0a8eaeaa0a0a8e8aafaffff\n\
open-in-the-middle 1 010102 1 0108000000000000a0a0000080808080a0a80080a0a0a0a8eaeaa0a0a8e8aafaffff 1 010206\n\
highest-rows 1 01080000000000000000000000000000000000000000000000000000000000000090\
01080000000000000000000000000000000000000000000000000000000000000060\n";

// Refused records, the first of an input or after whole ones: 1 where the input ends in each field, then 2, 3, 4, and 5 for kinds that are
// neither 1 nor 5. What follows is not read.
pub const REFUSED: [u8; 1175] = *b"\
ends-after-kind 1 01\n\
ends-in-n 1 0180\n\
ends-in-longer-n 1 018080\n\
ends-after-n 1 0102\n\
ends-in-table 1 0105a8e8e8\n\
ends-in-table-of-8 1 0108ffffffffffffffffffffffffffffffffffffffffffffffffffffffffffffff\n\
third-ends-after-kind 1 010208010206 1 01\n\
third-ends-in-n 1 010208010206 1 0180\n\
third-ends-in-longer-n 1 010208010206 1 018080\n\
third-ends-after-n 1 010208010206 1 0103\n\
third-ends-in-table 1 010208010206 1 010488\n\
n-9 1 0109\n\
n-9-and-more 1 010900 1 010208\n\
n-128 1 018001\n\
n-2097151 1 01ffff7f\n\
third-n-9 1 010208010206 1 010900 1 010102\n\
spare-of-n-0 1 010002\n\
spare-of-n-1 1 010104\n\
spare-of-n-2 1 010210\n\
spare-and-more 1 010288 1 010208\n\
third-spare 1 010208010206 1 010183 1 010102\n\
n-too-long 1 01808080\n\
n-not-shortest 1 018200\n\
n-not-shortest-and-9 1 018900\n\
n-not-shortest-in-three 1 01828000\n\
n-not-shortest-and-more 1 01820008 1 010208\n\
third-n-not-shortest 1 010208010206 1 01820008 1 010102\n\
kind-0 1 00\n\
kind-2 1 020208040608\n\
kind-3 1 030206040001010102010301\n\
kind-4 1 0402080000000000000000\n\
kind-6 1 0602060e0000000000000000\n\
kind-7 1 07 1 010208\n\
kind-129 1 810208\n\
kind-255-and-n-too-long 1 ff808080\n\
second-kind-7 1 010208 1 07\n\
third-kind-2 1 010208010206 1 020208040608 1 010102\n";

// Means of K; a name has the sum and the number of gates. Whole (18 of 1, 54 of 3); an exact half over an even tenth (45 of 4, 41 of 20) and
// over an odd one (47 of 4, 59 of 20, 227 of 20); below a half over an even tenth (43 of 21) and over an odd one (7 of 3, 76 of 39); above
// a half over an even tenth (11 of 3, 80 of 39) and over an odd one (41 of 21).
pub const MEANS: [u8; 508] = *b"\
mean-18-of-1 1 010208\n\
mean-54-of-3 3 010208\n\
mean-7-of-3 2 010001 1 010102\n\
mean-11-of-3 1 010001 2 010102\n\
mean-45-of-4 1 01020801030101020e010102\n\
mean-45-of-4-with-witnesses 1 01020601020801030101020601020e010102010206\n\
mean-47-of-4 1 0102080103ae01020e010001\n\
mean-43-of-21 20 010001 1 010323\n\
mean-41-of-21 20 010001 1 01030b\n\
mean-59-of-20 19 010001 1 0103e0\n\
mean-227-of-20 11 010208 5 010102 4 010001\n\
mean-41-of-20 18 010001 1 010102 1 010208\n\
mean-80-of-39 38 010001 1 010337\n\
mean-76-of-39 38 010001 1 010307\n";

// The longest input, 65,536 bytes, and inputs of 65,537: the same with a byte more, one of whole records, and one whose first byte is
// no kind of a report.
pub const LONG: [u8; 867] = *b"\
longest 963 01080100000000000000000000000000000000000000000000000000000000000000\
010888f888f888f8ffff88f888f888f8ffff88f888f888f8ffffffffffffffffffff 1 \
0108ffffffffffffffffffffffffffffffffffffffffffffffffffffffffffffffff010780e8e8fee8eee8fe88e8e8fee8eeeefe\n\
longest-and-one-more 963 01080100000000000000000000000000000000000000000000000000000000000000\
010888f888f888f8ffff88f888f888f8ffff88f888f888f8ffffffffffffffffffff 1 \
0108ffffffffffffffffffffffffffffffffffffffffffffffffffffffffffffffff010780e8e8fee8eee8fe88e8e8fee8eeeefe00\n\
whole-records-too-long 963 01080100000000000000000000000000000000000000000000000000000000000000\
010888f888f888f8ffff88f888f888f8ffff88f888f888f8ffffffffffffffffffff 1 \
010780e8e8fee8eee8fe88e8e8fee8eeeefe010780e880e880e8e8ee80e888e880e8e8ee010688e8a8e888e8e8ee010488f8010208\n\
longest-kind-7 1 07 21845 000000\n\
kind-7-too-long 2 07 21845 000000\n";

// Large sums: inputs of 65,536 bytes, each 1,927 tables of eight inputs with a K of 77,630, where a gate's line can have at most 100,000, and
// one of seven inputs. The mean is an exact half over an even tenth, and the least that is above it.
pub const SUMS: [u8; 272] = *b"\
mean-149594002-of-1928 1927 010800000000000088a80080a8e888e8feff000080a88080eafe80a8eafeeafeffff 1 \
010708088e8e8c8ececf080c8e8e8e8eceef\n\
mean-149594003-of-1928 1927 010800000000000088a80080a8e888e8feff000080a88080eafe80a8eafeeafeffff 1 \
0107008080e8008000e0008000c000000080\n";

// Tables with rows that are not cared for. No row cared for is a gate with K 0, which counts in the mean; document 002's table, beside that with
// every row cared for; an XOR with any one row left free; gates, witnesses and an open job with some rows left free. Then refused ones: 1 in
// the values and in the care bytes, 3 of either, the values' before 1 of the care bytes, 16, and 5 for a job.
pub const PARTIAL: [u8; 1848] = *b"\
no-row 1 05020000\n\
no-row-of-each-n 1 05000000050100000502000005030000\n\
no-row-of-eight 1 050800000000000000000000000000000000000000000000000000000000000000000000000000000000000000000000000000000000000000000000000000000000\n\
g4 1 0503e0f7\n\
g4-and-every-row 1 0503e0f7 1 0103e0\n\
xor-but-a-row 1 0502060e0502040d0502020b05020607\n\
one-row 1 0501020205020808 1 05020008\n\
xor-of-half 1 0503060f050324a5\n\
looped-but-some 1 05040810281405048878e87e0505a0a868f8eefd7eff 1 050600808028e8faecfe7fffff7ffffffeff\n\
gates-but-some 1 0504ff03fffb 1 050780e8e8fee8eee8fe88e8e8fee8eeee7ef7fffffffffffffffeffffffefffff7f 1 0508008000a0800080e8000000a\
080e080f0a0f8a0faf8dec8ffa0faa0daf8dee8f7debffeffdf1bebfff70faeebfbfbfff6ffffbffaffdfcafffffffddfffdeeef7\n\
open-but-some 1 0508000000000000a0a0000080808080a0a80080a0a0a0a8eacaa0a0a8e8aafafffffffffffffffffffffdfffff7ffffffffffffffffffffff\
dfffffffffffffffff 1 010102\n\
last-rows 1 0508000000000000000000000000000000000000000000000000000000000000006000000000000000000000000000000000000000000000000000000000000000f0\n\
mean-18-of-2-with-no-row 1 05020000 1 010208\n\
mean-5-of-4-with-no-row 3 05020000 1 010102\n\
mean-44-of-2-both-kinds 1 0502060e 1 0503e0f7 1 010206\n\
partial-ends-after-kind 1 05\n\
partial-ends-in-n 1 0580\n\
partial-n-9 1 0509\n\
partial-n-not-shortest 1 058200\n\
no-values 1 0502\n\
values-end 1 050488\n\
spare-values-and-no-cares 1 050216\n\
no-cares 1 050206\n\
cares-end 1 050488f8ff\n\
spare-cares 1 0502061e\n\
spare-cares-and-stray 1 05020817\n\
spare-values-and-stray 1 05021807\n\
stray 1 05020807\n\
stray-and-more 1 05020807 1 010208\n\
every-row 1 0502060f\n\
every-row-of-n-0 1 05000101\n\
third-no-cares 1 0102080502060e 1 050206\n\
third-spare-cares 1 0102080502060e 1 0502061e 1 010102\n\
third-stray 1 0102080502060e 1 05020807 1 010102\n\
third-every-row 1 0102080502060e 1 0502060f 1 010102\n\
third-kind-6 1 0102080502060e 1 0602060e0000000000000000 1 010102\n";
