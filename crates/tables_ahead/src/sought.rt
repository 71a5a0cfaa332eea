//! An incoming sequence that is sought once, for many looks.
ghost use Rattle.std.specs.Prelude.{◌≡◌, List, Option, Some};
ghost use Rattle.record_batch.specs.Fact.{Fact};
ghost use Rattle.record_batch.specs.Sequences.Find.{find_incoming};
ghost use Rattle.record_batch.specs.Sequences.Idents.{IsIssuedFor};
ghost use Rattle.record_batch.specs.Sequences.Makers.{number};
ghost use Rattle.tables_ahead.specs.Known.{IsSought};

use node_tables::Tables;
use record_batch::sequences::issued_counter;
use rm_base::Ident;

/// What was sought: the number that the node issued an identifier for, and the incoming sequence that has it. Where
/// there is no number nothing was.
#[derive(Clone, Copy)]
pub(crate) struct Sought {
    pub drawn: Option<u64>,
    pub seq: Option<u32>,
}

impl Sought {
    /// Nothing was sought.
    pub(crate) fn nothing() -> Self
        ensures { (r : List Fact) → IsSought r result.drawn result.seq }
    {
        Sought {
            drawn: None,
            seq: None,
        }
    }

    /// The sequence with an identifier, where one is given that the node issued.
    pub(crate) fn new(tables: &Tables, ident: Option<&Ident>) -> Self
        ensures { IsSought tables.now.records result.drawn result.seq }
    {
        match ident {
            Some(ident) => Sought::of(tables, ident),
            None => Sought::nothing(),
        }
    }

    // The sequence with an identifier, where the node issued it.
    fn of(tables: &Tables, ident: &Ident) -> Self
        ensures { IsSought tables.now.records result.drawn result.seq }
    {
        match issued_counter(tables.number(), ident.as_slice()) {
            Some(drawn) => Sought::issued(tables, ident, drawn),
            None => Sought::nothing(),
        }
    }

    // The sequence with an identifier that the node issued for a number.
    fn issued(tables: &Tables, ident: &Ident, drawn: u64) -> Self
        requires { IsIssuedFor (number tables.now.records) ident.now (Some drawn) }
        ensures { IsSought tables.now.records result.drawn result.seq }
    {
        Sought {
            drawn: Some(drawn),
            seq: tables.find_incoming(ident),
        }
    }

    /// The incoming sequence of the tables with an identifier. It is looked for only where it isn't the one that was
    /// sought.
    pub(crate) fn find_incoming(&self, tables: &Tables, ident: &Ident) -> Option<u32>
        requires { IsSought tables.now.records self.now.drawn self.now.seq }
        ensures { result ≡ find_incoming tables.now.records ident.now }
    {
        if let Some(sought) = self.drawn {
            if let Some(drawn) = issued_counter(tables.number(), ident.as_slice()) {
                if drawn == sought {
                    return self.seq;
                }
            }
        }
        tables.find_incoming(ident)
    }
}
