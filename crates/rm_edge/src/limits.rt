//! The limits of the edge, each of them once. Times are in milliseconds.

/// The most connections of peers at once.
pub const MOST_PEERS: usize = 896;

/// The most connections of applications at once: no peer takes their places.
pub const MOST_APPS: usize = 128;

/// The most applications that wait at once for an answer that isn't there yet: one more is answered at once.
pub const MOST_PAUSED: usize = 64;

/// After how many milliseconds the desk is asked again for them, where nothing else was done.
pub const AGAIN: u64 = 200;

/// The most connections to other hosts at once.
pub const MOST_POSTS: usize = 64;

/// The most connections of peers that come from one address. Where there are more, the one that was silent for longest
/// makes place, and where none is silent the new one is let go.
pub const MOST_OF_ONE: usize = 64;

/// For a whole request or answer, from its first byte on; for a connection to a host to be made; and for the first byte
/// of an answer once the request is written.
pub const WHOLE: u64 = 30000;

/// For the first byte of a request.
pub const IDLE: u64 = 60000;

/// For a whole connection, from the moment at which it was taken or dialled. An application's begins anew with each
/// request.
pub const LIFE: u64 = 120000;

/// For a peer to close its connection once its answer is written, and for how long it may be silent in that time.
pub const LINGER: u64 = 5000;

pub const SILENCE: u64 = 500;

/// The most bytes that are read of a peer in that time.
pub const MOST_DRAINED: usize = 16777216;

/// The most bytes that are held of all requests, answers and packets together. Beyond it a connection that has more
/// than `SMALL` is ended, and no packet is queued.
pub const MOST_BYTES: usize = 67108864;

pub const SMALL: usize = 65536;

/// The most bytes that are gathered of one message.
pub const MOST_GATHERED: usize = 4194304;

/// The most hosts for which packets wait, the most packets that wait for one host, and the most bytes of these.
pub const MOST_HOSTS: usize = 256;

pub const MOST_QUEUED: usize = 256;

pub const MOST_QUEUED_BYTES: usize = 16777216;

/// For how long a host rests that can't be dialled: at first, and at most, as the time doubles.
pub const FIRST_REST: u64 = 500;

pub const MOST_REST: u64 = 16000;

/// After which time a host that can't be dialled is looked up again.
pub const LOOK_AGAIN: u64 = 60000;

/// How often connections are looked through for those whose time is up, and how long a wait is at most.
pub const STRIDE: u64 = 250;

/// How often what is ready on sockets is asked for while requests wait.
pub const BREATH: u64 = 10;

/// How many connections are taken in a row.
pub const MOST_TAKEN: usize = 256;

/// How many sockets one wait tells of.
pub const MOST_EVENTS: usize = 256;

/// How many bytes one read asks for.
pub const PIECE: usize = 16384;

/// What sockets are told by: the listener of peers, that of applications, and connections by their places from a
/// number on.
pub const TOKEN_OF_PEERS: usize = 0;

pub const TOKEN_OF_APPS: usize = 1;

pub const FIRST_TOKEN: usize = 16;
