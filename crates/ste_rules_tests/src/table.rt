//! Derivations with what they are answered with; begin with `STEPS`.

/// Three assertions and a graph.
const TASKS: &str =
    ".vars p q\n.ste u\n.ant a = p from 0 to 1\n.con n = !p from 0 to 1\n.ste w\n.ant n = q from 0 to 1\n.con y = !q from 0 to 1\n.gste g v\n.edge v v\n.ste r reset\n.con a = 1 from 0 to 1";

/// Derivations with their leaves and the text of their last step.
pub const STEPS: &[(&str, &str, &str)] = &[
    (
        TASKS,
        ".leaf s0 u\n.leaf s1 w\n.specialise s2 s1 q = !p\n.cut s3 s0 s2",
        "0 1 s3: derived\n  ant a = p when 1 from 0 to 1\n  con y = !!p when 1 from 0 to 1\n",
    ),
    (
        TASKS,
        ".identity k\n.ant a = p from 0 to 1",
        "k: derived\n  ant a = p when 1 from 0 to 1\n  con a = p when 1 from 0 to 1\n",
    ),
    (
        TASKS,
        ".leaf s0 u\n.specialise k s0 p = !p",
        "0 k: derived\n  ant a = !p when 1 from 0 to 1\n  con n = !!p when 1 from 0 to 1\n",
    ),
    (
        TASKS,
        ".leaf s0 u\n.specialise k s0 p = p & (q | 0) ^ q",
        "0 k: derived\n  ant a = ((p & (q | 0)) ^ q) when 1 from 0 to 1\n  con n = !((p & (q | 0)) ^ q) when 1 from 0 to 1\n",
    ),
    (
        TASKS,
        ".leaf s0 u\n.shift k s0 99999",
        "0 k: derived\n  ant a = p when 1 from 99999 to 100000\n  con n = !p when 1 from 99999 to 100000\n",
    ),
    (
        TASKS,
        ".leaf s0 u\n.leaf s1 r\n.both k s0 s1",
        "0 3 k: derived\n  reset\n  ant a = p when 1 from 0 to 1\n  con n = !p when 1 from 0 to 1\n  con a = 1 when 1 from 0 to 1\n",
    ),
    (
        TASKS,
        ".leaf s0 u\n.leaf s1 r\n.both j s1 s0\n.weaker k j 01\n.stronger l k\n.ant y = q when p from 2 to 3",
        "0 3 l: derived\n  reset\n  ant a = p when 1 from 0 to 1\n  ant y = q when p from 2 to 3\n  con n = !p when 1 from 0 to 1\n",
    ),
    (
        TASKS,
        ".leaf s0 u\n.weaker k s0",
        "0 k: derived\n  ant a = p when 1 from 0 to 1\n",
    ),
    (
        TASKS,
        ".leaf s0 u\n.shift k s0 00000000000000000000000000000000000002",
        "0 k: derived\n  ant a = p when 1 from 2 to 3\n  con n = !p when 1 from 2 to 3\n",
    ),
    (TASKS, ".identity k", "k: derived\n"),
    (
        TASKS,
        ".identity k\n.shift j k 99999999999999999999999999",
        "j: derived\n",
    ),
];

/// Derivations with the fault of each.
pub const FAULTS: &[(&str, &str, &str)] = &[
    (TASKS, "", "no step"),
    (TASKS, "# nothing", "no step"),
    (
        TASKS,
        ".leaf s0 u\n.leaf s1 w\n.specialise s2 s1 q = !p\n.cut s3 s0 s1",
        "4: uncovered",
    ),
    (TASKS, ".leaf a r\n.shift b a 1", "2: reset"),
    (TASKS, ".leaf s0 u\n.leaf s0 w", "2: double s0"),
    (TASKS, ".leaf s0 g", "1: name g"),
    (TASKS, ".leaf s0 x", "1: name x"),
    (TASKS, ".both k a b", "1: name a"),
    (TASKS, ".identity a\n.both k a b", "2: name b"),
    (TASKS, ".leaf s0 u\n.weaker k s0 1", "2: number"),
    (TASKS, ".leaf s0 u\n.weaker k s0 1 0", "2: bad"),
    (TASKS, ".leaf s0 u\n.weaker k s0 0 0", "2: bad"),
    (
        TASKS,
        ".leaf s0 u\n.weaker k s0 99999999999999999999999 100000000000000000000000",
        "2: number",
    ),
    (
        TASKS,
        ".leaf s0 u\n.weaker k s0 100000000000000000000000 99999999999999999999999",
        "2: bad",
    ),
    (TASKS, ".leaf s0 u\n.weaker k s0 x", "2: bad"),
    (TASKS, ".leaf s0 u\n.specialise k s0 z = p", "2: variable z"),
    (
        TASKS,
        ".leaf s0 u\n.specialise k s0 p = q & z",
        "2: variable z",
    ),
    (TASKS, ".leaf s0 u\n.specialise k s0 p q", "2: bad"),
    (TASKS, ".leaf s0 u\n.specialise k s0 p =", "2: bad"),
    (TASKS, ".leaf s0 u\n.specialise k s0 p = p when 1", "2: bad"),
    (TASKS, ".leaf s0 u\n.shift k s0 100000", "2: many"),
    (TASKS, ".leaf s0 u\n.shift k s0 -1", "2: bad"),
    (
        TASKS,
        ".leaf s0 u\n.shift k s0 99999999999999999999999999",
        "2: many",
    ),
    (TASKS, ".ant a = p from 0 to 1", "1: bad"),
    (TASKS, ".leaf s0 u\n.ant a = p from 0 to 1", "2: bad"),
    (TASKS, ".identity k\n.ant a = p", "2: bad"),
    (TASKS, ".identity k\n.ant b = p from 0 to 1", "2: node b"),
    (
        TASKS,
        ".identity k\n.ant a = z from 0 to 1",
        "2: variable z",
    ),
    (TASKS, ".identity k\n.ant a = p from 0 to 100001", "2: many"),
    (TASKS, ".identity k\n.ant a = p from 2 to 1", "2: bad"),
    (TASKS, ".identity k\n.con a = p from 0 to 1", "2: bad"),
    (TASKS, ".leaf k", "1: bad"),
    (TASKS, ".identity", "1: bad"),
    (TASKS, ".both k a", "1: bad"),
    (TASKS, ".stronger k", "1: bad"),
    (TASKS, ".weaker k", "1: bad"),
    (TASKS, ".cut k a", "1: bad"),
    (TASKS, "leaf k u", "1: bad"),
    (
        TASKS,
        ".identity k\n.ant a = !!!!!!!!!!!!!!!!!!!!!!!!!!!!!!!!!!!!!!!!!!!!!!!!!!!!!!!!!!!!!!!!!!!!!!!!!!!!!!!!!!!!!!!!!!!!!!!!!!!!!p from 0 to 1",
        "2: deep",
    ),
    (
        TASKS,
        ".leaf s0 u\n.specialise k s0 p = !!!!!!!!!!!!!!!!!!!!!!!!!!!!!!!!!!!!!!!!!!!!!!!!!!!!!!!!!!!!!!!!!!!!!!!!!!!!!!!!!!!!!!!!!!!!!!!!!!!!!p",
        "2: deep",
    ),
];

/// Lines with several faults, and the one that is told.
pub const ORDERS: &[(&str, &str, &str)] = &[
    (
        TASKS,
        ".leaf s0 u\n.specialise s0 x z = !!!!!!!!!!!!!!!!!!!!!!!!!!!!!!!!!!!!!!!!!!!!!!!!!!!!!!!!!!!!!!!!!!!!!!!!!!!!!!!!!!!!!!!!!!!!!!!!!!!!!p",
        "2: deep",
    ),
    (TASKS, ".leaf s0 u\n.specialise s0 x z = y", "2: double s0"),
    (TASKS, ".leaf s0 u\n.specialise k x z = y", "2: name x"),
    (TASKS, ".leaf s0 u\n.specialise k s0 z = y", "2: variable z"),
    (TASKS, ".leaf s0 r\n.shift s0 x 999999", "2: double s0"),
    (TASKS, ".leaf s0 r\n.shift k s0 999999", "2: reset"),
    (TASKS, ".leaf s0 u\n.weaker s0 x 9", "2: double s0"),
    (TASKS, ".leaf s0 u\n.weaker k x 9", "2: name x"),
    (
        TASKS,
        ".leaf s0 u\n.leaf s1 w\n.cut s0 s0 s1",
        "3: double s0",
    ),
    (
        TASKS,
        ".identity k\n.ant b = z from 0 to 100001",
        "2: variable z",
    ),
    (
        TASKS,
        ".identity k\n.ant b = p from 0 to 100001",
        "2: node b",
    ),
    (
        TASKS,
        ".identity k\n.ant b = p when ( from 0 to 1",
        "2: bad",
    ),
];
