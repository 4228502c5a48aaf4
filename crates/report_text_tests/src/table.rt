//! Reports with their texts; begin with `ASSERTIONS`.

use ste_model::Verdict;

/// Cubes, with a character `0`, `1` or `-` for each variable, and whether there are more.
pub type List = (&'static [&'static str], bool);

/// What a task names: the numbers of nets, of a graph for each edge.
#[derive(Clone, Copy)]
pub enum Named {
    Ste(&'static [u32], &'static [u32]),
    Gste(&'static [(&'static [u32], &'static [u32])]),
}

/// What is reported of a task.
#[derive(Clone, Copy)]
pub struct Reported {
    pub name: &'static str,
    pub named: Named,
    pub verdict: Verdict,
    /// The strong, the weak and the contradictory assignments.
    pub lists: (List, List, List),
    /// A bit for each variable.
    pub least: Option<&'static str>,
    pub path: &'static [u32],
    pub fails: Option<(u32, u32)>,
    /// The bits of each net.
    pub run: Option<&'static [&'static str]>,
}

/// What is reported of the tasks of a file, and its text.
pub struct Entry {
    pub netlist: &'static str,
    pub vars: &'static [&'static str],
    pub tasks: &'static [Reported],
    pub wave: bool,
    pub nodes: Option<u32>,
    pub text: &'static str,
}

const INV: &str = ".model inv\n.inputs a\n.outputs y\n.names a y\n0 1\n.end\n";

const LAT: &str = ".model l\n.inputs d\n.outputs q\n.latch d q 1\n.end\n";

/// The nets a, n and y.
const BOTH_SIGNS: &str = ".model both\n.inputs a\n.names a n\n0 1\n.names a n y\n11 1\n.end\n";

/// The nets a, y, m, 0/n and 1/n.
const TWO_LEVELS: &str = ".model top\n.inputs a\n.outputs y\n.subckt mid a=a b=a y=m\n\
      .subckt mid a=m b=a y=y\n.end\n.model mid\n.inputs a b\n.outputs y\n\
      .subckt nor2 p=a q=b r=n\n.names n y\n0 1\n.end\n.model nor2\n.inputs p q\n.outputs r\n\
      .names p q r\n00 1\n.end\n";

const NO: List = (&[], false);

const ALL: List = (&["-"], false);

/// Assertions of each verdict.
pub const ASSERTIONS: &[Entry] = &[
    // An assertion that passes, and one that fails.
    Entry {
        netlist: INV,
        vars: &["p"],
        tasks: &[Reported {
            name: "t1",
            named: Named::Ste(&[0], &[1]),
            verdict: Verdict::Pass,
            lists: (NO, NO, NO),
            least: None,
            path: &[],
            fails: None,
            run: None,
        }],
        wave: false,
        nodes: None,
        text: "t1: pass\n",
    },
    Entry {
        netlist: INV,
        vars: &["p"],
        tasks: &[Reported {
            name: "t1",
            named: Named::Ste(&[0], &[1]),
            verdict: Verdict::Strong,
            lists: (ALL, NO, NO),
            least: Some("0"),
            path: &[],
            fails: Some((1, 0)),
            run: Some(&["0", "1"]),
        }],
        wave: false,
        nodes: None,
        text: "t1: strong failure\n  strong: 1\n  least: p=0\n  fails: y at 0\n  run:\n    a: 0\n    y: 1\n",
    },
    // A weak failure has no run.
    Entry {
        netlist: INV,
        vars: &["p"],
        tasks: &[Reported {
            name: "t1",
            named: Named::Ste(&[], &[1]),
            verdict: Verdict::Weak,
            lists: (NO, ALL, NO),
            least: Some("0"),
            path: &[],
            fails: Some((1, 0)),
            run: None,
        }],
        wave: false,
        nodes: None,
        text: "t1: weak failure\n  weak: 1\n  least: p=0\n  fails: y at 0\n",
    },
    // Some or all assignments are contradictory.
    Entry {
        netlist: INV,
        vars: &["p"],
        tasks: &[Reported {
            name: "t1",
            named: Named::Ste(&[0, 0], &[1]),
            verdict: Verdict::Vacuous,
            lists: (NO, NO, ALL),
            least: None,
            path: &[],
            fails: None,
            run: None,
        }],
        wave: false,
        nodes: None,
        text: "t1: contradictory antecedent\n  contradictory: 1\n",
    },
    Entry {
        netlist: INV,
        vars: &["p", "q"],
        tasks: &[Reported {
            name: "t1",
            named: Named::Ste(&[0, 0], &[1]),
            verdict: Verdict::Pass,
            lists: (NO, NO, (&["01", "10"], false)),
            least: None,
            path: &[],
            fails: None,
            run: None,
        }],
        wave: false,
        nodes: None,
        text: "t1: pass\n  contradictory: !p & q | p & !q\n",
    },
    // Without variables the line of the least assignment ends at its colon.
    Entry {
        netlist: BOTH_SIGNS,
        vars: &[],
        tasks: &[Reported {
            name: "g",
            named: Named::Ste(&[], &[2]),
            verdict: Verdict::Weak,
            lists: (NO, ALL, NO),
            least: Some(""),
            path: &[],
            fails: Some((2, 0)),
            run: None,
        }],
        wave: false,
        nodes: None,
        text: "g: weak failure\n  weak: 1\n  least:\n  fails: y at 0\n",
    },
];

/// Paths, several lists, times and guards.
pub const PATHS_AND_LISTS: &[Entry] = &[
    // A path, without a run and with one.
    Entry {
        netlist: LAT,
        vars: &[],
        tasks: &[Reported {
            name: "g",
            named: Named::Gste(&[(&[0], &[]), (&[0], &[]), (&[], &[1])]),
            verdict: Verdict::Weak,
            lists: (NO, ALL, NO),
            least: Some(""),
            path: &[0, 2],
            fails: Some((1, 1)),
            run: None,
        }],
        wave: false,
        nodes: None,
        text: "g: weak failure\n  weak: 1\n  least:\n  path: 0 2\n  fails: q at 1\n",
    },
    Entry {
        netlist: LAT,
        vars: &["p"],
        tasks: &[Reported {
            name: "g",
            named: Named::Gste(&[(&[0], &[]), (&[], &[1])]),
            verdict: Verdict::Strong,
            lists: (ALL, NO, NO),
            least: Some("0"),
            path: &[0, 1],
            fails: Some((1, 1)),
            run: Some(&["00", "00"]),
        }],
        wave: false,
        nodes: None,
        text: "g: strong failure\n  strong: 1\n  least: p=0\n  path: 0 1\n  fails: q at 1\n  run:\n    d: 00\n    q: 00\n",
    },
    // Two lists.
    Entry {
        netlist: LAT,
        vars: &["p"],
        tasks: &[Reported {
            name: "g",
            named: Named::Gste(&[(&[0, 0], &[]), (&[], &[1])]),
            verdict: Verdict::Strong,
            lists: ((&["0"], false), NO, (&["1"], false)),
            least: Some("0"),
            path: &[0, 1],
            fails: Some((1, 1)),
            run: Some(&["00", "00"]),
        }],
        wave: false,
        nodes: None,
        text: "g: strong failure\n  strong: !p\n  contradictory: p\n  least: p=0\n  path: 0 1\n  fails: q at 1\n  run:\n    d: 00\n    q: 00\n",
    },
    // A later time.
    Entry {
        netlist: INV,
        vars: &["p"],
        tasks: &[Reported {
            name: "t1",
            named: Named::Ste(&[0], &[1]),
            verdict: Verdict::Weak,
            lists: (NO, ALL, NO),
            least: Some("0"),
            path: &[],
            fails: Some((1, 1)),
            run: None,
        }],
        wave: false,
        nodes: None,
        text: "t1: weak failure\n  weak: 1\n  least: p=0\n  fails: y at 1\n",
    },
    // A guard.
    Entry {
        netlist: INV,
        vars: &["p"],
        tasks: &[Reported {
            name: "t1",
            named: Named::Ste(&[0], &[1]),
            verdict: Verdict::Strong,
            lists: ((&["1"], false), NO, NO),
            least: Some("1"),
            path: &[],
            fails: Some((1, 0)),
            run: Some(&["1", "0"]),
        }],
        wave: false,
        nodes: None,
        text: "t1: strong failure\n  strong: p\n  least: p=1\n  fails: y at 0\n  run:\n    a: 1\n    y: 0\n",
    },
];

/// Runs of all nets, numbers behind reports, and files of several tasks and of none.
pub const NETS_AND_TASKS: &[Entry] = &[
    // All nets in their order, and the nets that are named alone.
    Entry {
        netlist: TWO_LEVELS,
        vars: &["p"],
        tasks: &[Reported {
            name: "h",
            named: Named::Ste(&[0], &[1]),
            verdict: Verdict::Strong,
            lists: (ALL, NO, NO),
            least: Some("0"),
            path: &[],
            fails: Some((1, 0)),
            run: Some(&["0", "0", "0", "1", "1"]),
        }],
        wave: true,
        nodes: None,
        text: "h: strong failure\n  strong: 1\n  least: p=0\n  fails: y at 0\n  run:\n    a: 0\n    y: 0\n    m: 0\n    0/n: 1\n    1/n: 1\n",
    },
    Entry {
        netlist: TWO_LEVELS,
        vars: &["p"],
        tasks: &[Reported {
            name: "h",
            named: Named::Ste(&[0], &[3]),
            verdict: Verdict::Strong,
            lists: (ALL, NO, NO),
            least: Some("0"),
            path: &[],
            fails: Some((3, 0)),
            run: Some(&["0", "0", "0", "1", "1"]),
        }],
        wave: false,
        nodes: None,
        text: "h: strong failure\n  strong: 1\n  least: p=0\n  fails: 0/n at 0\n  run:\n    a: 0\n    0/n: 1\n",
    },
    // All three lists, two of them longer than what is shown of them, and a number beyond the nets.
    Entry {
        netlist: LAT,
        vars: &["p", "_q", "r2"],
        tasks: &[Reported {
            name: "t",
            named: Named::Ste(&[1], &[99]),
            verdict: Verdict::Strong,
            lists: ((&["000", "01-"], true), (&["001"], false), (&["1-1"], true)),
            least: Some("000"),
            path: &[],
            fails: Some((1, 10)),
            run: Some(&["01101", "10110"]),
        }],
        wave: false,
        nodes: Some(4294967295),
        text: "t: strong failure\n  strong: !p & !_q & !r2 | !p & _q | ...\n  weak: !p & !_q & r2\n  contradictory: p & r2 | ...\n  least: p=0 _q=0 r2=0\n  fails: q at 10\n  run:\n    q: 10110\nshared nodes: 4294967295\n",
    },
    // Tasks in order, one whose steps were spent, and the number of shared nodes behind them.
    Entry {
        netlist: LAT,
        vars: &["p"],
        tasks: &[
            Reported {
                name: "r",
                named: Named::Ste(&[], &[1]),
                verdict: Verdict::Pass,
                lists: (NO, NO, NO),
                least: None,
                path: &[],
                fails: None,
                run: None,
            },
            Reported {
                name: "f",
                named: Named::Ste(&[], &[1]),
                verdict: Verdict::Weak,
                lists: (NO, ALL, NO),
                least: Some("0"),
                path: &[],
                fails: Some((1, 0)),
                run: None,
            },
            Reported {
                name: "b",
                named: Named::Gste(&[(&[0], &[1])]),
                verdict: Verdict::Budget,
                lists: (NO, NO, NO),
                least: None,
                path: &[],
                fails: None,
                run: None,
            },
        ],
        wave: false,
        nodes: Some(2),
        text: "r: pass\nf: weak failure\n  weak: 1\n  least: p=0\n  fails: q at 0\nb: budget\nshared nodes: 2\n",
    },
    // No task.
    Entry {
        netlist: LAT,
        vars: &["p"],
        tasks: &[],
        wave: true,
        nodes: Some(0),
        text: "shared nodes: 0\n",
    },
];
