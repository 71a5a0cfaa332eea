//! Each command, with the words behind its name and a line of help for each of them.

use rm_base::limits::{MAX_NUMBER, MOST_SEQUENCES};

/// What a word may be.
#[derive(Clone, Copy, Debug)]
pub enum Kind {
    /// A number from low to high.
    Number { low: u64, high: u64 },
    /// One of these.
    OneOf { values: &'static [&'static str] },
    /// Any text: what is asked of it besides is asked elsewhere.
    Text,
}

/// A word behind a command's name.
#[derive(Clone, Copy, Debug)]
pub struct Word {
    pub name: &'static str,
    pub kind: Kind,
    pub help: &'static str,
}

/// A command.
#[derive(Clone, Copy, Debug)]
pub struct Row {
    pub name: &'static str,
    pub about: &'static str,
    pub words: &'static [Word],
}

/// The greatest number of a node and of a soak.
const MOST_SEED: u64 = (1 << 60) - 1;

const GRANTS: &[&str] = &["dfg", "des", "loose"];

const GRANT: Word = Word {
    name: "GRANT",
    kind: Kind::OneOf { values: GRANTS },
    help: "What a closed sequence drops: what follows its first gap (dfg), all (des), or nothing, in no order (loose)",
};

const SEQUENCE: Word = Word {
    name: "SEQUENCE",
    kind: Kind::Number {
        low: 1,
        high: MOST_SEQUENCES as u64,
    },
    help: "The number of a sequence",
};

const SERVE: &[Word] = &[
    Word {
        name: "PORT",
        kind: Kind::Number {
            low: 1,
            high: 65535,
        },
        help: "The port to listen at",
    },
    Word {
        name: "COUNT",
        kind: Kind::Number {
            low: 1,
            high: 65535,
        },
        help: "How many connections it takes before it ends",
    },
    GRANT,
];

/// The commands, those of one node first.
pub static ROWS: [Row; 18] = [
    Row {
        name: "make",
        about: "Makes a node in this folder",
        words: &[
            Word {
                name: "NUMBER",
                kind: Kind::Number {
                    low: 1,
                    high: MOST_SEED,
                },
                help: "A number that no other node has",
            },
            Word {
                name: "ADDRESS",
                kind: Kind::Text,
                help: "Where its peers reach it, as http://HOST:PORT/",
            },
        ],
    },
    Row {
        name: "run",
        about: "Runs the node, serving and sending until it is told to stop, by the program wsrm_run",
        words: &[
            Word {
                name: "LISTEN",
                kind: Kind::Text,
                help: "Where it listens: PORT, or ADDRESS:PORT",
            },
            GRANT,
        ],
    },
    Row {
        name: "serve",
        about: "Takes so many connections, and ends",
        words: SERVE,
    },
    Row {
        name: "serve11",
        about: "The same for peers that speak SOAP 1.1",
        words: SERVE,
    },
    Row {
        name: "send",
        about: "Sends what standard input has as one message",
        words: &[Word {
            name: "ADDRESS",
            kind: Kind::Text,
            help: "Where it goes, as http://HOST:PORT/",
        }],
    },
    Row {
        name: "push",
        about: "Posts what is due",
        words: &[],
    },
    Row {
        name: "close",
        about: "Closes a sequence that sends",
        words: &[SEQUENCE],
    },
    Row {
        name: "end",
        about: "Ends a sequence that sends",
        words: &[SEQUENCE],
    },
    Row {
        name: "inbox",
        about: "Prints what a sequence received",
        words: &[SEQUENCE],
    },
    Row {
        name: "consume",
        about: "Takes what a sequence received out of its inbox",
        words: &[
            SEQUENCE,
            Word {
                name: "ITEM",
                kind: Kind::Number {
                    low: 1,
                    high: MAX_NUMBER,
                },
                help: "The number of the last item that is taken",
            },
        ],
    },
    Row {
        name: "compact",
        about: "Writes the journal anew, with what is still needed",
        words: &[],
    },
    Row {
        name: "import",
        about: "Makes a node of an older journal, from standard input",
        words: &[],
    },
    Row {
        name: "replay",
        about: "Plays a script of two nodes, from standard input",
        words: &[],
    },
    Row {
        name: "soak",
        about: "Plays a script that a number generates",
        words: &[Word {
            name: "NUMBER",
            kind: Kind::Number {
                low: 0,
                high: MOST_SEED,
            },
            help: "The number: the same one plays the same script",
        }],
    },
    Row {
        name: "check",
        about: "Says what message standard input has, or what is wrong with it",
        words: &[],
    },
    Row {
        name: "policy",
        about: "Says what the policy assertion on standard input asks for",
        words: &[],
    },
    Row {
        name: "normal",
        about: "Prints the normal form of the policy on standard input",
        words: &[],
    },
    Row {
        name: "intersect",
        about: "Prints what the two policies on standard input have in common",
        words: &[],
    },
];

/// The row of a command.
pub fn row_of(name: &str) -> Option<&'static Row> {
    ROWS.iter().find(|row| row.name == name)
}
