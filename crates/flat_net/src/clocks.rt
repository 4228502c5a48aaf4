//! That all latches have one type and one control net; begin with `refuse_mixed_clocks`.

ghost use Rattle.std.specs.Prelude.{◌≡◌, ◌⊎◌, ◌++◌, List, None, Some, IfErr, OnOk, flat_map, nat_eq, option_map};
ghost use Rattle.std.specs.Bool.{beq};
ghost use Rattle.flat_net.specs.declared.clocks.Clock.{Clock};
ghost use Rattle.hierarchy.specs.declared.fault.NetFault.TheVariants.{OutOfMemory};
ghost use Rattle.hierarchy.specs.Faults.{are_apart};
ghost use Rattle.hierarchy.specs.Lines.{is_rising, latch_of};
ghost use Rattle.flat_net.specs.private.Drivers.{clock_at, clocks_in, clocks_with, first_mixed, mixed_fault, mixes, no_clocks};
ghost use Rattle.flat_net.specs.private.Passes.{node_in};

use crate::instance::{Instance, node_in};
use blif_syntax::{Item, LatchKind, What};
use hierarchy::NetFault;
use ste_base::Name;

/// A latch: its line, its output's net, whether its type is `re`, where it has one, and its
/// control's net, where it has one.
#[derive(Clone, Copy)]
pub(crate) struct Clock {
    pub(crate) line: u32,
    pub(crate) net: u32,
    pub(crate) rising: Option<bool>,
    pub(crate) control: Option<u32>,
}

/// Whether a latch's type is `re`, where it has one.
fn is_rising(kind: LatchKind) -> Option<bool>
    ensures { result ≡ is_rising kind }
{
    match kind {
        LatchKind::Plain => None,
        LatchKind::Rising => Some(true),
        LatchKind::Falling => Some(false),
    }
}

/// The net of a control, where there is one.
fn control_in(instance: &Instance, control: &Option<Name>) -> Option<u32>
    ensures { result ≡ option_map (λ word. (node_in instance.now word).0) control.now }
{
    match control {
        Some(word) => Some(node_in(instance, word).0),
        None => None,
    }
}

/// The latch of a line, where it is one.
fn clock_of(instance: &Instance, item: &Item) -> Option<Clock>
    ensures { result ≡ option_map (clock_at instance.now)
        (option_map (λ latch. (item.now.line, latch)) (latch_of item.now.what)) }
{
    match &item.what {
        What::Latch {
            output,
            kind,
            control,
            ..
        } => Some(Clock {
            line: item.line,
            net: node_in(instance, output).0,
            rising: is_rising(*kind),
            control: control_in(instance, control),
        }),
        _ => None,
    }
}

/// Whether there are two types, and they differ.
fn types_differ(one: Option<bool>, other: Option<bool>) -> bool
    ensures { result ≡ are_apart beq one other }
{
    match (one, other) {
        (Some(one), Some(other)) => one != other,
        _ => false,
    }
}

/// Whether there are two controls, and they differ.
fn controls_differ(one: Option<u32>, other: Option<u32>) -> bool
    ensures { result ≡ are_apart nat_eq one other }
{
    match (one, other) {
        (Some(one), Some(other)) => one != other,
        _ => false,
    }
}

/// What latches have so far: the first type and the first control, where there are any.
#[derive(Clone, Copy)]
pub(crate) struct Clocks {
    pub(crate) rising: Option<bool>,
    pub(crate) control: Option<u32>,
}

/// Whether a latch has another type, or another control, than what came before.
fn is_mixed(clocks: &Clocks, latch: &Clock) -> bool
    ensures { result ≡ mixes clocks.now latch.now }
{
    types_differ(clocks.rising, latch.rising) || controls_differ(clocks.control, latch.control)
}

/// What there is with one more latch.
fn clocks_with(clocks: &Clocks, latch: &Clock) -> Clocks
    ensures { result ≡ clocks_with clocks.now latch.now }
{
    Clocks {
        rising: clocks.rising.or(latch.rising),
        control: clocks.control.or(latch.control),
    }
}

/// The fault of a latch that has another type or control.
fn mixed_fault(latch: &Clock, names: &[Name]) -> NetFault
    ensures { (result ≡ OutOfMemory) ⊎ (result ≡ mixed_fault names.now latch.now) }
{
    let Some(name) = names.get(latch.net as usize) else {
        return NetFault::OutOfMemory;
    };
    match name.clone() {
        Ok(name) => NetFault::MixedClocks {
            line: latch.line,
            name,
        },
        Err(fault) => NetFault::from(fault),
    }
}

/// Refuses the first latch in an instance, by line, that has another type or control than what came
/// before, and adds what the others have. `names` has the nets' own names, by number.
fn refuse_in(instance: &Instance, names: &[Name], clocks: &mut Clocks) -> Result<(), NetFault>
    ensures ok { OnOk result ((rest : List Clock) →
        first_mixed clocks.new rest ≡ first_mixed clocks.old (clocks_in instance.now ++ rest)) }
    ensures err { IfErr result (λ fault. (fault ≡ OutOfMemory) ⊎ ((rest : List Clock) →
        option_map (mixed_fault names.now) (first_mixed clocks.old (clocks_in instance.now ++ rest))
        ≡ Some fault)) }
{
    for item in instance.model.items.as_slice() {
        if let Some(latch) = clock_of(instance, item) {
            if is_mixed(clocks, &latch) {
                return Err(mixed_fault(&latch, names));
            }
            *clocks = clocks_with(clocks, &latch);
        }
    }
    Ok(())
}

/// Refuses the first latch, by instance and line, whose type is another than the first type, or
/// whose control is on another net than the first control. `names` has the nets' own names, by
/// number.
pub(crate) fn refuse_mixed_clocks(instances: &[Instance], names: &[Name]) -> Result<(), NetFault>
    ensures ok { OnOk result (first_mixed no_clocks (flat_map clocks_in instances.now) ≡ None) }
    ensures err { IfErr result (λ fault. (fault ≡ OutOfMemory) ⊎ (option_map (mixed_fault names.now)
        (first_mixed no_clocks (flat_map clocks_in instances.now)) ≡ Some fault)) }
{
    let mut clocks = Clocks {
        rising: None,
        control: None,
    };
    for instance in instances {
        refuse_in(instance, names, &mut clocks)?;
    }
    Ok(())
}
