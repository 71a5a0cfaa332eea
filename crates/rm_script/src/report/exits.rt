//! How a command of the program may end, whichever it is: the exit statuses, and the lines that several commands print
//! where they refuse. Each stands here once for the code; definitions have them from `specs/Exits`.

/// What was asked for was done.
pub const DONE: u8 = 0;

/// The words are no command.
pub const USAGE: u8 = 2;

/// A line of a script is not in the grammar.
pub const BAD_LINE: u8 = 3;

/// A read of the input failed.
pub const READ_FAULT: u8 = 4;

/// A write of what is printed failed.
pub const WRITE_FAULT: u8 = 5;

/// The disk failed.
pub const DISK_FAULT: u8 = 6;

/// No connection could be made or taken.
pub const LINK_FAULT: u8 = 7;

/// The input is too long.
pub const TOO_LONG: u8 = 8;

/// What was asked for is refused.
pub const REFUSED: u8 = 9;

/// Memory ran out.
pub const MEMORY: u8 = 10;

/// The disk has no journal.
pub const NOT_A_JOURNAL: u8 = 11;

/// The line of words that are no command: it names every command that there is to be.
pub const USAGE_LINE: &[u8] = b"usage: wsrm check,replay,soak,make,serve,send,push,close,end,inbox,\
        policy,compact,consume,import,normal,intersect,serve11\n";

/// The line of a read that failed.
pub const READ_FAULT_LINE: &[u8] = b"read fault\n";

/// The line of an input that is too long.
pub const TOO_LONG_LINE: &[u8] = b"too long\n";
