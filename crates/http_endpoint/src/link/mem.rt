//! A link over connections in memory, of which chosen calls fail.
ghost use Rattle.std.specs.Prelude.{◌≡◌, ◌≤◌, [], length, ◌==◌, true, Some, OnErr, IsOk, is_err};
ghost use Rattle.rm_base.specs.Count.{Rose};
ghost use Rattle.rm_base.specs.Outside.{talking_told};
ghost use Rattle.http_endpoint.specs.Link.Lines.{Connects, brought};
ghost use Rattle.http_endpoint.specs.Link.Mem.{net_in_memory};

use crate::link::link::Link;
use crate::link::past::Past;
use rm_base::{Failed, MemConn, Numbers};
use std::marker::Model;
use std::vec::IntoIter;

/// A link that brings connections in memory, one after the other, and of whose calls those with chosen numbers fail. It
/// tells what it was asked for until memory is wanting to note it.
#[derive(Debug, Drop)]
pub struct MemLink {
    rest: IntoIter<MemConn>,
    past: Past,
    fail_at: Numbers,
    calls: u64,
    faults: u64,
}

impl Model for MemLink {
    ghost use Rattle.std.specs.Vec.Iter.{into_iter_items};
    ghost use Rattle.http_endpoint.specs.Link.Mem.{Linking};

    ghost Value = { Linking };

    ghost view = { λ l. record {
      coming = into_iter_items l.rest;
      past = l.past;
      fail_at = l.fail_at;
      calls = l.calls;
      faults = l.faults;
    } };
}

impl MemLink {
    /// A link that has these connections to come, and whose calls with these numbers fail, counted from 1.
    pub fn new(inputs: Vec<MemConn>, fail_at: Numbers) -> Self
        ensures { result ≡ record {
          coming = inputs.items;
          past = Some [];
          fail_at = fail_at;
          calls = 0;
          faults = 0;
        } }
    {
        let past = Past::new(*inputs.allocator());
        MemLink {
            rest: inputs.into_iter(),
            past,
            fail_at,
            calls: 0,
            faults: 0,
        }
    }

    // Counts a call, and a fault where the call is one of those that fail.
    fn count_call(&mut self) -> Result<(), Failed>
        ensures coming { self.new.coming ≡ self.old.coming }
        ensures past { self.new.past ≡ self.old.past }
        ensures fail_at { self.new.fail_at ≡ self.old.fail_at }
        ensures never_falls { self.old.faults ≤ self.new.faults }
        ensures failed { OnErr result (Rose self.old.faults self.new.faults) }
        ensures sound { (length self.old.fail_at == 0) ≡ true → IsOk result }
    {
        self.calls = self.calls.saturating_add(1);
        if self.fail_at.as_slice().contains(&self.calls) {
            self.faults = self.faults.saturating_add(1);
            return Err(Failed);
        }
        Ok(())
    }

    // The next connection, unless the call fails or there is none.
    fn next(&mut self) -> Result<MemConn, Failed>
        ensures connects { Connects (net_in_memory self.old) (net_in_memory self.new) (brought talking_told result) }
        ensures past { self.new.past ≡ self.old.past }
    {
        self.count_call()?;
        match self.rest.next() {
            Some(conn) => Ok(conn),
            None => {
                self.faults = self.faults.saturating_add(1);
                Err(Failed)
            }
        }
    }
}

impl Link for MemLink {
    type Conn = MemConn;

    type Asking = MemConn;

    type Hearing = MemConn;

    ghost told = { net_in_memory };

    fn listen(&mut self, port: u16) -> Result<(), Failed> {
        self.past.listened(port);
        self.count_call()
    }

    fn accept(&mut self) -> Result<MemConn, Failed> {
        self.next()
    }

    fn dial(&mut self, host: &[u8], port: u16) -> Result<MemConn, Failed> {
        self.past.dialled(host, port);
        self.next()
    }

    fn asked(conn: MemConn) -> MemConn {
        conn
    }

    fn hang_up(&mut self, conn: MemConn) {
        self.past.hung_up(conn);
    }
}
