//! The loop of a service.
ghost use Rattle.std.specs.Prelude.{OnOk};
ghost use Rattle.service_turns.specs.Traffic.{Asked, Called, Gives, Heard, Quiet, came_in};
ghost use Rattle.service_turns.specs.Turns.{Does, Turn, Turns, posted};

use crate::desk::Desk;
use crate::traffic::{Event, Packets, Traffic};
use rm_base::Blob;

/// Why a run ended before it was told to: nothing more can come, or the desk goes on no longer.
#[derive(Debug, Drop)]
pub enum Halt<W> {
    Deaf,
    Stuck(W),
}

/// Takes what comes, one thing after the other, and gives back what the desk says, until the desk is told to stop; at
/// most so many times. It waits for each as long as the desk has time.
pub fn run<T: Traffic, D: Desk>(
    traffic: &mut T,
    desk: &mut D,
    most: u64,
) -> Result<(), Halt<D::Why>>
    requires { D.ready desk.old }
    ensures turns { Turns D.does D.stops most desk.old desk.new (T.told traffic.old) (T.told traffic.new) result }
    ensures ready { OnOk result (D.ready desk.new) }
{
    let mut left = most;
    while left > 0 {
        turn(traffic, desk)?;
        if desk.is_stopped() {
            return Ok(());
        }
        left -= 1;
    }
    Ok(())
}

// One thing that comes.
fn turn<T: Traffic, D: Desk>(traffic: &mut T, desk: &mut D) -> Result<(), Halt<D::Why>>
    requires { D.ready desk.old }
    ensures turn { Turn D.does desk.old desk.new (T.told traffic.old) (T.told traffic.new) result }
    ensures ready { OnOk result (D.ready desk.new) }
{
    match traffic.next(desk.patience()) {
        Ok(event) => handle(traffic, desk, event),
        Err(_) => Err(Halt::Deaf),
    }
}

// What came is done.
fn handle<T: Traffic, D: Desk>(
    traffic: &mut T,
    desk: &mut D,
    event: Event<T::Peer, T::App>,
) -> Result<(), Halt<D::Why>>
    requires { D.ready desk.old }
    ensures did { Does D.does desk.old desk.new (T.told traffic.old) (T.told traffic.new)
        (came_in T.Peer.Source.told T.App.Source.told event) result }
    ensures ready { OnOk result (D.ready desk.new) }
{
    match event {
        Event::Quiet => rest(traffic, desk),
        Event::Asked(conn) => serve(traffic, desk, conn),
        Event::Called(conn) => tell(traffic, desk, conn),
        Event::Heard(body) => take(traffic, desk, body),
    }
}

fn rest<T: Traffic, D: Desk>(traffic: &mut T, desk: &mut D) -> Result<(), Halt<D::Why>>
    requires { D.ready desk.old }
    ensures did { Does D.does desk.old desk.new (T.told traffic.old) (T.told traffic.new) Quiet result }
    ensures ready { OnOk result (D.ready desk.new) }
{
    match desk.rest() {
        Ok(due) => {
            post_all(traffic, due);
            Ok(())
        }
        Err(why) => Err(Halt::Stuck(why)),
    }
}

fn serve<T: Traffic, D: Desk>(
    traffic: &mut T,
    desk: &mut D,
    mut conn: T::Peer,
) -> Result<(), Halt<D::Why>>
    requires { D.ready desk.old }
    ensures did { Does D.does desk.old desk.new (T.told traffic.old) (T.told traffic.new)
        (Asked (T.Peer.Source.told conn)) result }
    ensures ready { OnOk result (D.ready desk.new) }
{
    match desk.serve(&mut conn) {
        Ok(served) => {
            traffic.reply(conn);
            post_all(traffic, served);
            Ok(())
        }
        Err(why) => Err(Halt::Stuck(why)),
    }
}

fn tell<T: Traffic, D: Desk>(
    traffic: &mut T,
    desk: &mut D,
    mut conn: T::App,
) -> Result<(), Halt<D::Why>>
    requires { D.ready desk.old }
    ensures did { Does D.does desk.old desk.new (T.told traffic.old) (T.told traffic.new)
        (Called (T.App.Source.told conn)) result }
    ensures ready { OnOk result (D.ready desk.new) }
{
    match desk.tell(&mut conn) {
        Ok(told) => {
            traffic.answer(conn);
            post_all(traffic, told);
            Ok(())
        }
        Err(why) => Err(Halt::Stuck(why)),
    }
}

fn take<T: Traffic, D: Desk>(traffic: &mut T, desk: &mut D, body: Blob) -> Result<(), Halt<D::Why>>
    requires { D.ready desk.old }
    ensures did { Does D.does desk.old desk.new (T.told traffic.old) (T.told traffic.new) (Heard body) result }
    ensures ready { OnOk result (D.ready desk.new) }
{
    match desk.take(body) {
        Ok(more) => {
            post_all(traffic, more);
            Ok(())
        }
        Err(why) => Err(Halt::Stuck(why)),
    }
}

// Packets are to be posted, in order.
fn post_all<T: Traffic>(traffic: &mut T, packets: Packets)
    ensures { Gives (T.told traffic.old) (T.told traffic.new) (posted packets) }
{
    let mut rest = packets.into_vec().into_iter();
    while let Some(packet) = rest.next() {
        traffic.post(packet);
    }
}
