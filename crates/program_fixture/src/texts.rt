//! Netlists and tasks that several tests use.

/// An inverter from `a` to `y`.
pub const INVERTER: &str = ".model inv\n.inputs a\n.outputs y\n.names a y\n0 1\n.end\n";

/// The task that it inverts.
pub const INVERTS: &str =
    ".vars p\n.ste t1\n.ant a = p from 0 to 1\n.con y = !p from 0 to 1\n.end\n";

/// A latch from `d` to `q`.
pub const LATCH: &str = ".model l\n.inputs d\n.outputs q\n.latch d q\n.end\n";

/// Two instances of a model with an inverter.
pub const TWICE: &str =
    ".model top\n.inputs a\n.outputs y\n.subckt mid a=a b=a y=m\n.subckt mid a=m b=a y=y\n.end\n.model mid\n.inputs a b\n.outputs y\n.subckt nor2 p=a q=b r=n\n.names n y\n0 1\n.end\n.model nor2\n.inputs p q\n.outputs r\n.names p q r\n00 1\n.end\n";
