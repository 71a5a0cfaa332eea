//! What lists of alternatives have in common that are no normal forms of policies within the limits.
use rm_base::Memory;
use rm_policy::alternatives::{Alternatives, Term, Terms, WspError, intersect};
use soap_document::profile::{Name, Shared};
use std::alloc::Global;

// So many alternatives of a term each, in order.
fn alternatives(alloc: Global, count: u16) -> Result<Alternatives, Memory> {
    let mut lists = Alternatives::new(alloc);
    for i in 0..count {
        let space = Shared::from_slice(alloc, b"urn:x")?;
        let name = Name::new(alloc, space, &i.to_be_bytes())?;
        let mut terms = Terms::new(alloc);
        terms.push(Term::Other(name))?;
        lists.push(terms)?;
    }
    Ok(lists)
}

// How many alternatives are in common of the first so many and so many, or nothing where these are too many.
fn count_common(alloc: Global, one: u16, other: u16) -> Result<Option<usize>, WspError> {
    let lists = alternatives(alloc, one)?;
    let others = alternatives(alloc, other)?;
    match intersect(alloc, &lists, &others) {
        Ok(common) => Ok(Some(common.len())),
        Err(WspError::TooManyAlternatives) => Ok(None),
        Err(error) => Err(error),
    }
}

const COUNTS: [(u16, u16, Option<usize>); 6] = [
    (0, 257, Some(0)),
    (256, 256, Some(256)),
    (300, 256, Some(256)),
    (256, 300, Some(256)),
    (257, 257, None),
    (300, 257, None),
];

#[test]
fn counts(rt: HostRuntime) -> Result<(), WspError> {
    for (one, other, wanted) in COUNTS {
        assert!(rt; count_common(rt.alloc(), one, other)? == wanted);
    }
    Ok(())
}
