//! Places in a document.
/// Where in a document an element's content begins, and where it ends.
#[derive(Clone, Copy, Debug, PartialEq, Eq)]
pub struct Place {
    pub start: usize,
    pub end: usize,
}
