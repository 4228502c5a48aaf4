//! Names of lengths around the most that lie in place; begin with `names_of_many_lengths`.

use std::alloc::{AllocError, Global};
use std::cmp::Ordering;
use std::process::Abort;
use std::test::Fail;
use ste_base::{Name, copies};

/// Numbers of bytes, rising.
const LENGTHS: &[usize] = &[0, 1, 23, 24, 25, 300];

/// So many bytes, each another than the one before.
fn text_of(alloc: Global, length: usize) -> Result<Vec<u8>, AllocError> {
    (0..length).map(|at| (at % 251) as u8).collect(alloc)
}

/// The name of so many bytes.
fn name_of(alloc: Global, length: usize) -> Result<Name, AllocError> {
    let text = text_of(alloc, length)?;
    Name::from_bytes(alloc, text.as_slice())
}

/// A name of each length.
fn names_of(alloc: Global) -> Result<Vec<Name>, AllocError> {
    let mut names = Vec::new(alloc);
    for length in LENGTHS {
        names.push(name_of(alloc, *length)?)?;
    }
    Ok(names)
}

/// Whether a name and its copy have these bytes, and are equal.
fn has_bytes(name: &Name, text: &[u8]) -> Result<bool, AllocError> {
    let copy = name.clone()?;
    Ok(name.bytes() == text && copy.bytes() == text && copy == *name)
}

/// Whether a name has the bytes that a name of this length is made from.
fn has_length(alloc: Global, name: &Name, length: usize) -> Result<bool, AllocError> {
    let text = text_of(alloc, length)?;
    has_bytes(name, text.as_slice())
}

/// Whether the copies of names are equal to them.
fn are_copied(alloc: Global, names: &[Name]) -> Result<bool, AllocError> {
    let copied = copies(alloc, names)?;
    Ok(
        copied.len() == names.len()
            && copied
                .as_slice()
                .iter()
                .zip(names)
                .all(|(copy, name)| copy == name),
    )
}

/// Compares names of all lengths, and their copies, with the bytes that they were made from.
fn compare_bytes(rt: &impl Abort, alloc: Global, names: &[Name]) -> Result<(), AllocError> {
    assert_eq!(rt; names.len(), LENGTHS.len());
    for (length, name) in LENGTHS.iter().zip(names) {
        assert!(rt; has_length(alloc, name, *length)?, "a name of {length}");
    }
    assert!(rt; are_copied(alloc, names)?);
    Ok(())
}

/// The bytes of a name and of its copy are those that it was made from.
#[test]
fn names_of_many_lengths(rt: HostRuntime) -> Result<(), Fail> {
    let names = names_of(rt.alloc())?;
    compare_bytes(&rt, rt.alloc(), names.as_slice())?;
    Ok(())
}

/// Compares the order of names with that of their lengths.
fn compare_orders(rt: &impl Abort, names: &[Name]) {
    for (length, name) in LENGTHS.iter().zip(names) {
        for (other_length, other) in LENGTHS.iter().zip(names) {
            let same = (name == other) == (length == other_length);
            assert!(rt;
                same && name.cmp(other) == length.cmp(other_length),
                "{length} and {other_length}"
            );
        }
    }
}

/// Each of these names is the beginning of the next, so they are equal and ordered as their lengths
/// are.
#[test]
fn names_in_order(rt: HostRuntime) -> Result<(), Fail> {
    let names = names_of(rt.alloc())?;
    compare_orders(&rt, names.as_slice());
    Ok(())
}

/// The name of so many bytes, of which the last is 255.
fn last_name_of(alloc: Global, length: usize) -> Result<Name, AllocError> {
    let mut text = text_of(alloc, length)?;
    let _ = text.pop();
    text.push(255)?;
    Name::from_bytes(alloc, text.as_slice())
}

/// Whether a name of this length differs from the one whose last byte is greater, and stands before
/// it.
fn is_before(alloc: Global, length: usize) -> Result<bool, AllocError> {
    let name = name_of(alloc, length)?;
    let other = last_name_of(alloc, length)?;
    Ok(name != other && name.cmp(&other) == Ordering::Less)
}

#[test]
fn last_bytes(rt: HostRuntime) -> Result<(), Fail> {
    for length in &LENGTHS[1..] {
        assert!(rt; is_before(rt.alloc(), *length)?, "last byte of {length}");
    }
    Ok(())
}
