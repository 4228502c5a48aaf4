//! Netlists with their flat nets, or with what they are refused for, in tables; begin with
//! `flat_nets`.

ghost use Rattle.std.specs.Prelude.{◌≤◌, length};

use crate::names::BOUND;
use crate::shown::{fault_text, shown};
use blif_lines::logical_lines;
use blif_syntax::read_models;
use flat_net::flatten;
use std::alloc::{AllocError, Global};
use std::process::Abort;
use std::test::Fail;

/// Netlists of one model, and what is made of each: the names of the nets, the inputs, the outputs,
/// the gates with their covers, and the latches.
const LINES: &[(&[u8], &[u8])] = &[
    // Each kind of line alone.
    (b".model m\n", b"||||"),
    (b".model m\n.inputs a b\n", b" a b| 0 1|||"),
    (b".model m\n.clock k\n", b" k| 0|||"),
    (b".model m\n.outputs y\n", b" y|| 0||"),
    (b".model m\n.names y\n1\n", b" y||| (> 0 c0  1)|"),
    (b".model m\n.names y\n0\n", b" y||| (> 0 c0  0)|"),
    (
        b".model m\n.names a b y\n11 1\n",
        b" a b y||| (0 1 > 2 c0 11 1)|",
    ),
    (
        b".model m\n.names a b y\n11 0\n",
        b" a b y||| (0 1 > 2 c0 11 0)|",
    ),
    (b".model m\n.latch d q 0\n", b" d q|||| (0 > 1 0)"),
    (b".model m\n.latch d q 1\n", b" d q|||| (0 > 1 1)"),
    (b".model m\n.latch d q 3\n", b" d q|||| (0 > 1 ?)"),
    (b".model m\n.latch d q re k 1\n", b" d q k|||| (0 > 1 1)"),
    (b".model m\n.latch d q fe NIL 0\n", b" d q|||| (0 > 1 0)"),
    // Nets are numbered by first mention, whatever the line.
    (
        b".model m\n.outputs y\n.names a y\n1 1\n.inputs b a\n",
        b" y a b| 2 1| 0| (1 > 0 c0 1 1)|",
    ),
    (
        b".model m\n.latch q q re k 3\n.clock k\n",
        b" q k| 1||| (0 > 0 ?)",
    ),
    (
        b".model m\n.names a a y\n11 1\n.outputs a\n",
        b" a y|| 0| (0 0 > 1 c0 11 1)|",
    ),
    // A name that is repeated counts once; inputs are those of both kinds of line, in order.
    (
        b".model m\n.inputs b a b\n.clock k a\n.inputs d\n",
        b" b a k d| 0 1 2 3|||",
    ),
    (
        b".model m\n.outputs z y z\n.outputs x y\n",
        b" z y x|| 0 1 2||",
    ),
    // Gates and latches have numbers of their own, by line.
    (
        b".model m\n.latch y q 1\n.inputs a\n.names a x\n1 0\n.latch x r 0\n.names x q y\n11 1\n.outputs r y\n",
        b" y q a x r| 2| 4 0| (2 > 3 c0 1 0) (3 1 > 0 c1 11 1)| (0 > 1 1) (3 > 4 0)",
    ),
    // Names are compared byte by byte.
    (b".model m\n.inputs a A a1 a0\n", b" a A a1 a0| 0 1 2 3|||"),
    // An output may be driven, or be an input.
    (
        b".model m\n.outputs y\n.names y\n1\n",
        b" y|| 0| (> 0 c0  1)|",
    ),
    (b".model m\n.inputs a\n.outputs a\n", b" a| 0| 0||"),
    // A wide gate; gates that are not in order, and one that reads its own output.
    (
        b".model m\n.names a b c d e f g h i y\n111111111 1\n",
        b" a b c d e f g h i y||| (0 1 2 3 4 5 6 7 8 > 9 c0 111111111 1)|",
    ),
    (
        b".model m\n.names x y\n1 1\n.names a x\n1 1\n",
        b" x y a||| (0 > 1 c0 1 1) (2 > 0 c1 1 1)|",
    ),
    (
        b".model m\n.names a y y\n11 1\n",
        b" a y||| (0 1 > 1 c0 11 1)|",
    ),
    (
        b".model m\n.names q y\n1 1\n.latch y q 0\n",
        b" q y||| (0 > 1 c0 1 1)| (1 > 0 0)",
    ),
];

/// Netlists of one model, and the kind of the fault of each, with its line and name; or what is
/// made of it.
const REFUSED: &[(&[u8], &[u8])] = &[
    // A signal that is driven twice: the second driver, or the first one of an input.
    (
        b".model m\n.names a y\n1 1\n.names b y\n1 1\n",
        b"driven twice 4 y",
    ),
    (
        b".model m\n.names a y\n1 1\n.latch d y 0\n",
        b"driven twice 4 y",
    ),
    (
        b".model m\n.latch d y 0\n.names a y\n1 1\n",
        b"driven twice 3 y",
    ),
    (
        b".model m\n.latch d q 0\n.latch e q 0\n",
        b"driven twice 3 q",
    ),
    (b".model m\n.inputs a\n.names a\n1\n", b"driven twice 3 a"),
    (b".model m\n.names a\n1\n.inputs a\n", b"driven twice 2 a"),
    (b".model m\n.inputs q\n.latch d q 0\n", b"driven twice 3 q"),
    (b".model m\n.latch d q 0\n.clock q\n", b"driven twice 2 q"),
    (b".model m\n.names a\n1\n.clock a\n", b"driven twice 2 a"),
    // Types: a latch without one goes with any.
    (
        b".model m\n.latch d q re k 0\n.latch d r re k 0\n",
        b" d q k r|||| (0 > 1 0) (0 > 3 0)",
    ),
    (
        b".model m\n.latch d q re k 0\n.latch d r fe k 0\n",
        b"mixed clocks 3 r",
    ),
    (
        b".model m\n.latch d q fe NIL 0\n.latch d r re NIL 0\n",
        b"mixed clocks 3 r",
    ),
    (
        b".model m\n.latch d q 0\n.latch d r fe k 0\n.latch d s 0\n",
        b" d q r k s|||| (0 > 1 0) (0 > 2 0) (0 > 4 0)",
    ),
    (
        b".model m\n.latch d q 0\n.latch d r fe k 0\n.latch d s 0\n.latch d t re k 0\n",
        b"mixed clocks 5 t",
    ),
    // Controls: a latch without one goes with any.
    (
        b".model m\n.latch d q re k 0\n.latch d r re m 0\n",
        b"mixed clocks 3 r",
    ),
    (
        b".model m\n.latch d q re NIL 0\n.latch d r re m 0\n",
        b" d q r m|||| (0 > 1 0) (0 > 2 0)",
    ),
    (
        b".model m\n.latch d q re NIL 0\n.latch d r re m 0\n.latch d s re k 0\n",
        b"mixed clocks 4 s",
    ),
];

/// Netlists with instances, and what is made of each, or its fault.
const INSTANCES: &[(&[u8], &[u8])] = &[
    // Two instances of one model, whose gates share a cover.
    (
        b".model top\n.inputs a\n.outputs y\n.subckt inv i=a o=m\n.subckt inv i=m o=y\n.end\n\
          .model inv\n.inputs i\n.outputs o\n.names i o\n0 1\n.end\n",
        b" a y m| 0| 1| (0 > 2 c0 0 1) (2 > 1 c0 0 1)|",
    ),
    // Nets and gates are numbered in preorder of instances; a bound formal is its actual's net.
    (
        b".model top\n.inputs a\n.subckt mid x=a\n.subckt leaf p=a\n.end\n\
          .model mid\n.inputs x\n.subckt leaf p=x\n.names x t\n1 1\n.end\n\
          .model leaf\n.inputs p\n.names p q\n0 1\n.end\n",
        b" a 0/t 0/0/q 1/q| 0|| (0 > 1 c0 1 1) (0 > 2 c1 0 1) (0 > 3 c1 0 1)|",
    ),
    // Two formals on one net; bindings count by their formals, whatever their order.
    (
        b".model top\n.inputs a b\n.outputs y z\n.subckt n q=y r=z i=a j=a\n.end\n\
          .model n\n.inputs i j\n.outputs q r\n.names i j q\n10 1\n.latch q r 0\n.end\n",
        b" a b y z| 0 1| 2 3| (0 0 > 2 c0 10 1)| (2 > 3 0)",
    ),
    // A latch with its initial value, in a loop through its instance.
    (
        b".model top\n.outputs y\n.subckt r d=y q=y\n.end\n.model r\n.inputs d\n.outputs q\n.latch d q 1\n.end\n",
        b" y|| 0|| (0 > 0 1)",
    ),
    // A formal of `.clock` or `.outputs` that is not bound is an inner net; a model that is not
    // used is left out.
    (
        b".model top\n.subckt n\n.end\n.model n\n.clock c\n.outputs o\n.names c o\n1 1\n.end\n\
          .model unused\n.names x\n.names x\n",
        b" 0/c 0/o||| (0 > 1 c0 1 1)|",
    ),
    // Driven twice: by two instances, or an inner net, with its own name; the first by instances.
    (
        b".model top\n.inputs a\n.subckt inv i=a o=y\n.subckt inv i=a o=y\n.end\n\
          .model inv\n.inputs i\n.outputs o\n.names i o\n0 1\n.end\n",
        b"driven twice 9 y",
    ),
    (
        b".model m\n.subckt n\n.end\n.model n\n.names z\n1\n.names z\n1\n",
        b"driven twice 7 0/z",
    ),
    (
        b".model m\n.subckt k\n.subckt n\n.end\n.model n\n.names z\n.names z\n.end\n.model k\n.names y\n.names y\n.end\n",
        b"driven twice 11 0/y",
    ),
    // Clocks are compared by nets and not by names, across instances.
    (
        b".model top\n.latch a b re c\n.subckt n k=c\n.end\n.model n\n.inputs k\n.latch d e re k\n",
        b" a b c 0/d 0/e|||| (0 > 1 ?) (3 > 4 ?)",
    ),
    (
        b".model top\n.latch a b re c\n.subckt n k=z\n.end\n.model n\n.inputs k\n.latch d e re k\n",
        b"mixed clocks 7 0/e",
    ),
    // Driven twice goes before mixed clocks, and a fault that can be found before any instance is
    // made before both.
    (
        b".model m\n.latch a b re c 0\n.latch d b fe c 0\n",
        b"driven twice 3 b",
    ),
    (
        b".model m\n.names q\n.names q\n.subckt n\n",
        b"unknown model 4 n",
    ),
    (
        b".model m\n.names q\n.names q\n.subckt m\n",
        b"recursive 4 m",
    ),
    // Instances below instances, with formals that are bound twice over, and names with slashes in
    // them.
    (
        BOUND,
        b" a 0/b 0/0/q 7/x y m 0/s/t 0/b 0/0/x 0/0/q 0/1/x 0/1/q 1/s/t 1/b 1/0/x 1/0/q 1/1/x 1/1/q| 0 1 2 3| 4| (0 > 8 c0 1 1) (8 > 9 c1 1 1) (9 > 7 c2 1 1) (7 > 10 c0 1 1) (10 > 11 c1 1 1) (11 > 5 c2 1 1) (5 > 14 c0 1 1) (14 > 15 c1 1 1) (15 > 13 c2 1 1) (13 > 16 c0 1 1) (16 > 17 c1 1 1) (17 > 4 c2 1 1)|",
    ),
];

/// What is made of a text.
#[tactic(auto, using(blif_syntax::proofs::Fit::words_fit))]
fn net_or_fault_text(alloc: Global, text: &[u8]) -> Result<Vec<u8>, AllocError>
    requires { length text.now ≤ 67108864 }
{
    let lines = logical_lines(alloc, text)?;
    let Ok(models) = read_models(alloc, lines.as_slice()) else {
        return b"unread".to_vec(alloc);
    };
    match flatten(alloc, &models) {
        Ok((net, names)) => shown(alloc, &net, &names),
        Err(fault) => fault_text(alloc, &fault),
    }
}

/// Compares what is made of netlists.
fn compare(rt: &impl Abort, alloc: Global, table: &[(&[u8], &[u8])]) -> Result<(), AllocError> {
    for (text, want) in table {
        assert!(rt; text.len() <= 67_108_864);
        let got = net_or_fault_text(alloc, *text)?;
        assert_eq!(rt; got.as_slice(), *want, "at {text:?}");
    }
    Ok(())
}

#[test]
fn flat_nets(rt: HostRuntime) -> Result<(), Fail> {
    compare(&rt, rt.alloc(), LINES)?;
    Ok(())
}

#[test]
fn models_that_are_refused(rt: HostRuntime) -> Result<(), Fail> {
    compare(&rt, rt.alloc(), REFUSED)?;
    Ok(())
}

#[test]
fn flat_nets_of_instances(rt: HostRuntime) -> Result<(), Fail> {
    compare(&rt, rt.alloc(), INSTANCES)?;
    Ok(())
}
