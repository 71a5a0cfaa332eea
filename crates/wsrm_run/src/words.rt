//! The words that a node runs by.

use rm_base::Blob;
use rm_edge::{Listen, read_listen};
use rm_station::Grant;

/// Where a node listens to its peers, and what it announces for the sequences that it grants.
#[derive(Clone, Copy, Debug)]
pub struct Running {
    pub listen: Listen,
    pub grant: Grant,
}

/// What the words ask for: where to listen, a port or ADDRESS:PORT, and the word of a grant, as `serve` takes it.
pub fn running_of(words: &[Blob]) -> Option<Running> {
    let [listen, grant] = words else {
        return None;
    };
    Some(Running {
        listen: read_listen(listen.as_slice())?,
        grant: grant_of(grant.as_slice())?,
    })
}

fn grant_of(word: &[u8]) -> Option<Grant> {
    if word == b"dfg".as_slice() {
        return Some(Grant::DropsFollowing);
    }
    if word == b"des".as_slice() {
        return Some(Grant::DropsEntire);
    }
    if word == b"loose".as_slice() {
        return Some(Grant::Loose);
    }
    None
}
