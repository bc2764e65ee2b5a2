//! The texts of the files that the jobs name, and the answers.

const WIRE: &str = ".model wire
.inputs i v
.outputs u o
.table i -> u
- =i
.table v -> o
- =v
.end
";

const COPY: &str = ".model copy
.inputs i
.outputs o
.table i -> o
- =i
.end
";

const WIRE_AUTOMATON: &str = ".model wire
.inputs i v u o
.outputs Acc
.mv CS,NS 1 s0
.latch NS CS
.reset CS
s0
.table CS -> Acc
s0 1
.table i v u o CS -> NS
0 0 0 0 s0 s0
0 1 0 1 s0 s0
1 0 1 0 s0 s0
1 1 1 1 s0 s0
.end
";

// The wire without an accepting state.
const NEVER: &str = ".model never
.inputs i v u o
.outputs Acc
.mv CS,NS 1 s0
.latch NS CS
.reset CS
s0
.table CS -> Acc
s0 0
.table i v u o CS -> NS
.end
";

// It blocks: no step has u = 1.
const BLOCKS: &str = ".model blocks
.inputs i v u o
.outputs Acc
.mv CS,NS 1 s0
.latch NS CS
.reset CS
s0
.table CS -> Acc
s0 1
.table i v u o CS -> NS
0 - 0 0 s0 s0
.end
";

// The copy, from two states, of which one never accepts.
const TWICE: &str = ".model twice
.inputs i o
.outputs Acc
.mv CS,NS 2 a b
.latch NS CS
.reset CS
(a,b)
.table CS -> Acc
a 1
b 0
.table i o CS -> NS
0 0 a a
1 1 a a
- - b b
.end
";

// It has no word.
const NONE: &str = ".model none
.inputs i o
.outputs Acc
.mv CS,NS 1 s0
.latch NS CS
.reset CS
s0
.table CS -> Acc
s0 0
.table i o CS -> NS
0 0 s0 s0
1 1 s0 s0
.end
";

const EVERY: &str = ".model every
.inputs i
.outputs o
.table o
-
.end
";

// The output repeats the input a step later, at first 0.
pub const LATE: &str = ".model late
.inputs i v
.outputs u o
.table i -> u
- =i
.table l -> o
- =l
.latch v l
.reset l
0
.end
";

// The wire over three values, and what asks for 1 where the last of them is.
const TRI: &str = ".model wire
.inputs i v
.outputs u o
.mv i,u 3 r g k
.table i -> u
- =i
.table v -> o
- =v
.end
";

const TRI_LAST: &str = ".model tris
.inputs i
.outputs o
.mv i 3 r g k
.table i -> o
.default 0
k 1
.end
";

const RESERVED: &str = ".model r
.inputs i v
.outputs CS o
.table i -> CS
- =i
.table v -> o
- =v
.end
";

const SHORT: &str = ".model t\n.inputs a\n.outputs b\n.table a -> b\n0\n.end\n";

const VALUE: &str = ".model t\n.inputs a\n.outputs b\n.table a -> b\n0 2\n.end\n";

const DOUBLE: &str = ".model t\n.inputs a\n.outputs b\n.table a -> b\n- 0\n.table b\n1\n.end\n";

/// The files by their names.
pub const FILES: &[(&str, &str)] = &[
    ("wire.mv", WIRE),
    ("copy.mv", COPY),
    ("wire.aut", WIRE_AUTOMATON),
    ("never.aut", NEVER),
    ("blocks.aut", BLOCKS),
    ("twice.aut", TWICE),
    ("none.aut", NONE),
    ("every.mv", EVERY),
    ("late.mv", LATE),
    ("tri.mv", TRI),
    ("tris.mv", TRI_LAST),
    ("reserved.mv", RESERVED),
    ("short.mv", SHORT),
    ("value.mv", VALUE),
    ("double.mv", DOUBLE),
    ("e.mv", ""),
];

pub const X_OF_TWO: &str = ".model solution
.inputs u v
.outputs Acc
.mv u 2 0 1
.mv v 2 0 1
";

pub const TWO_STATES: &str = ".mv CS,NS 2 s0 s1
.latch NS CS
.reset CS
s0
.table CS -> Acc
";

pub const EQUAL_ROWS: &str = ".table u v CS -> NS
0 0 s0 s0
1 1 s0 s0
0 1 s0 s1
1 0 s0 s1
- - s1 s1
.end
";

pub const ANY_ROWS: &str = ".table u v CS -> NS
- - s0 s1
- - s1 s1
.end
";

pub const BLOCKED_ROWS: &str = ".table u v CS -> NS
0 - s0 s0
1 - s0 s1
- - s1 s1
.end
";

pub const EVERY_ANSWER: &str = ".mv CS,NS 1 s0
.latch NS CS
.reset CS
s0
.table CS -> Acc
s0 1
.table u v CS -> NS
- - s0 s0
.end
";

// Where u is r or g, v has to be 0, and else 1.
pub const TRI_ANSWER: &str = ".model solution
.inputs u v
.outputs Acc
.mv u 3 r g k
.mv v 2 0 1
.mv CS,NS 2 s0 s1
.latch NS CS
.reset CS
s0
.table CS -> Acc
s0 1
s1 0
.table u v CS -> NS
(r,g) 0 s0 s0
k 1 s0 s0
(r,g) 1 s0 s1
k 0 s0 s1
(r,g) - s1 s1
k - s1 s1
.end
";

// X reads i too. In s2 F has no run.
pub const EXTERNAL_ANSWER: &str = ".model solution
.inputs u i v
.outputs Acc
.mv u 2 0 1
.mv i 2 0 1
.mv v 2 0 1
.mv CS,NS 3 s0 s1 s2
.latch NS CS
.reset CS
s0
.table CS -> Acc
s0 1
s1 0
s2 1
.table u i v CS -> NS
0 0 0 s0 s0
1 1 1 s0 s0
0 0 1 s0 s1
1 1 0 s0 s1
0 1 - s0 s2
1 0 - s0 s2
0 0 - s1 s1
1 1 - s1 s1
0 1 - s1 s2
1 0 - s1 s2
- - - s2 s2
.end
";
