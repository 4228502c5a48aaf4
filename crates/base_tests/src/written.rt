//! The texts of one and of two stages, written out by hand.

/// The netlist of one stage.
pub const NET_OF_ONE: &[u8] = b".model pipe
.inputs s0_0 s0_1 s0_2 s0_3 s0_4 s0_5 s0_6 s0_7
.outputs s1_0 s1_1 s1_2 s1_3 s1_4 s1_5 s1_6 s1_7
.names s0_0 x1_0
0 1
.latch x1_0 s1_0 3
.names s0_1 x1_1
0 1
.latch x1_1 s1_1 3
.names s0_2 x1_2
0 1
.latch x1_2 s1_2 3
.names s0_3 x1_3
0 1
.latch x1_3 s1_3 3
.names s0_4 x1_4
0 1
.latch x1_4 s1_4 3
.names s0_5 x1_5
0 1
.latch x1_5 s1_5 3
.names s0_6 x1_6
0 1
.latch x1_6 s1_6 3
.names s0_7 x1_7
0 1
.latch x1_7 s1_7 3
.end
";

/// The task file of one stage.
pub const TASK_OF_ONE: &[u8] = b".vars b0 b1 b2 b3 b4 b5 b6 b7
.ste pipe
.ant s0_0 = b0 from 0 to 1
.ant s0_1 = b1 from 0 to 1
.ant s0_2 = b2 from 0 to 1
.ant s0_3 = b3 from 0 to 1
.ant s0_4 = b4 from 0 to 1
.ant s0_5 = b5 from 0 to 1
.ant s0_6 = b6 from 0 to 1
.ant s0_7 = b7 from 0 to 1
.con s1_0 = !b0 from 1 to 2
.con s1_1 = !b1 from 1 to 2
.con s1_2 = !b2 from 1 to 2
.con s1_3 = !b3 from 1 to 2
.con s1_4 = !b4 from 1 to 2
.con s1_5 = !b5 from 1 to 2
.con s1_6 = !b6 from 1 to 2
.con s1_7 = !b7 from 1 to 2
.end
";

/// The netlist of two stages.
pub const NET_OF_TWO: &[u8] = b".model pipe
.inputs s0_0 s0_1 s0_2 s0_3 s0_4 s0_5 s0_6 s0_7
.outputs s2_0 s2_1 s2_2 s2_3 s2_4 s2_5 s2_6 s2_7
.names s0_0 x1_0
0 1
.latch x1_0 s1_0 3
.names s0_1 x1_1
0 1
.latch x1_1 s1_1 3
.names s0_2 x1_2
0 1
.latch x1_2 s1_2 3
.names s0_3 x1_3
0 1
.latch x1_3 s1_3 3
.names s0_4 x1_4
0 1
.latch x1_4 s1_4 3
.names s0_5 x1_5
0 1
.latch x1_5 s1_5 3
.names s0_6 x1_6
0 1
.latch x1_6 s1_6 3
.names s0_7 x1_7
0 1
.latch x1_7 s1_7 3
.names s1_0 x2_0
0 1
.latch x2_0 s2_0 3
.names s1_1 x2_1
0 1
.latch x2_1 s2_1 3
.names s1_2 x2_2
0 1
.latch x2_2 s2_2 3
.names s1_3 x2_3
0 1
.latch x2_3 s2_3 3
.names s1_4 x2_4
0 1
.latch x2_4 s2_4 3
.names s1_5 x2_5
0 1
.latch x2_5 s2_5 3
.names s1_6 x2_6
0 1
.latch x2_6 s2_6 3
.names s1_7 x2_7
0 1
.latch x2_7 s2_7 3
.end
";

/// The task file of two stages.
pub const TASK_OF_TWO: &[u8] = b".vars b0 b1 b2 b3 b4 b5 b6 b7
.ste pipe
.ant s0_0 = b0 from 0 to 1
.ant s0_1 = b1 from 0 to 1
.ant s0_2 = b2 from 0 to 1
.ant s0_3 = b3 from 0 to 1
.ant s0_4 = b4 from 0 to 1
.ant s0_5 = b5 from 0 to 1
.ant s0_6 = b6 from 0 to 1
.ant s0_7 = b7 from 0 to 1
.con s2_0 = b0 from 2 to 3
.con s2_1 = b1 from 2 to 3
.con s2_2 = b2 from 2 to 3
.con s2_3 = b3 from 2 to 3
.con s2_4 = b4 from 2 to 3
.con s2_5 = b5 from 2 to 3
.con s2_6 = b6 from 2 to 3
.con s2_7 = b7 from 2 to 3
.end
";

/// The last lines of the netlist of a thousand stages.
pub const NET_END_OF_THOUSAND: &[u8] = b".names s999_7 x1000_7
0 1
.latch x1000_7 s1000_7 3
.end
";

/// The last lines of the task file of a thousand stages.
pub const TASK_END_OF_THOUSAND: &[u8] = b".con s1000_6 = b6 from 1000 to 1001
.con s1000_7 = b7 from 1000 to 1001
.end
";
