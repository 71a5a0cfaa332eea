//! The limits of a node, of its journal and of what it reads, each of them once for the code. Definitions have them as
//! numbers from `specs/Limits`, and the greatest message number from `specs/Message`.

/// How far past the front of a sequence a number is taken, and how many of its messages may be unacknowledged.
pub const WINDOW: u64 = 1024;

/// The most sequences of a node, in its whole life.
pub const MOST_SEQUENCES: u32 = 256;

/// The most messages of a node that are unacknowledged.
pub const MOST_UNACKED: u64 = 4096;

/// The most keys that wait to be emitted: messages that are unacknowledged, and a request of each sequence.
pub const MOST_KEYS: u32 = 4352;

/// The most bytes of a journal.
pub const JOURNAL_BYTES: u64 = 268435456;

/// The most bytes of an entry of the journal.
pub const ENTRY_BYTES: usize = 4194304;

/// The most bytes of an envelope, and of any document.
pub const ENVELOPE_BYTES: usize = 2097152;

/// The most bytes of a payload.
pub const PAYLOAD_BYTES: usize = 1048576;

/// The most bytes of a script.
pub const SCRIPT_BYTES: usize = 16777216;

/// The most bytes of an address.
pub const URI_BYTES: usize = 2048;

/// The most bytes of an identifier.
pub const IDENT_BYTES: usize = 512;

/// The most bytes of all reference parameters of an endpoint together.
pub const PARAMETER_BYTES: usize = 65536;

/// How many elements may be open at a place of a document.
pub const DOCUMENT_DEPTH: usize = 100;

/// How many elements of a payload, or of a reference parameter, may stand in one another.
pub const CONTENT_DEPTH: usize = 90;

/// The greatest message number: WS-ReliableMessaging 1.2, section 3.7.
pub const MAX_NUMBER: u64 = 9223372036854775807;

/// The most packets of a network in memory.
pub const MOST_PACKETS: usize = 65536;

/// The greatest moment that a program speaks of, in milliseconds since 1970 UTC.
pub const NOW_MAX: u64 = 200000000000000;
