//! Packets that wait for addresses: the limits, the order, and what room that was made is worth.
use rm_base::Uri;
use std::alloc::Global;
use std::test::Fail;
use timers::pending::Pending;

fn uri(alloc: Global, text: &str) -> Result<Uri, Fail> {
    Ok(Uri::from_slice(alloc, text.as_bytes())?)
}

// One of many addresses, which begin alike.
fn nth_uri(alloc: Global, n: u16) -> Result<Uri, Fail> {
    let bytes = [
        b'u',
        b':',
        b'a' + (n / 20 % 20) as u8,
        b'a' + (n % 20) as u8,
    ];
    Ok(Uri::from_slice(alloc, &bytes)?)
}

// Puts a packet for an address. Whether it waits.
fn waits(pending: &mut Pending<u16>, address: &Uri, packet: u16) -> bool {
    match pending.put(address, packet) {
        Ok(waits) => waits,
        Err(_) => false,
    }
}

// Puts a packet for an address. Whether it is dropped.
fn is_dropped(pending: &mut Pending<u16>, address: &Uri, packet: u16) -> bool {
    match pending.put(address, packet) {
        Ok(waits) => !waits,
        Err(_) => false,
    }
}

// Puts so many packets for an address, numbered from 0. Whether each of them waits.
fn all_wait(pending: &mut Pending<u16>, address: &Uri, count: u16) -> bool {
    let mut all = true;
    for k in 0..count {
        all = all & waits(pending, address, k);
    }
    all
}

// Puts a packet for each of so many addresses. Whether each of them waits.
fn each_waits(pending: &mut Pending<u16>, alloc: Global, count: u16) -> Result<bool, Fail> {
    let mut all = true;
    for n in 0..count {
        let address = nth_uri(alloc, n)?;
        all = all & waits(pending, &address, n);
    }
    Ok(all)
}

// Whether a poll gives these, one after the other, and then no more.
fn gives(pending: &mut Pending<u16>, address: &Uri, packets: &[u16]) -> bool {
    let mut left = packets.len();
    for packet in packets {
        left = left.saturating_sub(1);
        if pending.poll(address) != Some((*packet, left > 0)) {
            return false;
        }
    }
    pending.poll(address) == None
}

// Whether this waits first, with more behind it or not.
fn is_first(pending: &Pending<u16>, address: &Uri, first: Option<(u16, bool)>) -> bool {
    match pending.first(address) {
        Some((packet, more)) => first == Some((*packet, more)),
        None => first == None,
    }
}

#[test]
fn nothing_waits_at_first(rt: HostRuntime) -> Result<(), Fail> {
    let mut pending: Pending<u16> = Pending::new(rt.alloc());
    let a = uri(rt.alloc(), "urn:a")?;
    let none = is_first(&pending, &a, None) && gives(&mut pending, &a, &[]);
    assert!(rt; none && pending.dropped() == 0);
    Ok(())
}

// Each address has its own queue, an address that another one begins with too.
#[test]
fn the_oldest_comes_first(rt: HostRuntime) -> Result<(), Fail> {
    let mut pending: Pending<u16> = Pending::new(rt.alloc());
    let a = uri(rt.alloc(), "urn:a")?;
    let longer = uri(rt.alloc(), "urn:a:b")?;
    let put = all_wait(&mut pending, &a, 3) && waits(&mut pending, &longer, 7);
    let first = is_first(&pending, &a, Some((0, true)))
        && is_first(&pending, &longer, Some((7, false)));
    let given = gives(&mut pending, &a, &[0, 1, 2]) && gives(&mut pending, &longer, &[7]);
    assert!(rt; put && first && given);
    Ok(())
}

// What was polled leaves room for another one behind the others.
#[test]
fn the_sixty_fifth_is_dropped(rt: HostRuntime) -> Result<(), Fail> {
    let mut pending: Pending<u16> = Pending::new(rt.alloc());
    let a = uri(rt.alloc(), "urn:a")?;
    let b = uri(rt.alloc(), "urn:b")?;
    let full = all_wait(&mut pending, &a, 64) && is_dropped(&mut pending, &a, 64);
    let beside = pending.dropped() == 1 && waits(&mut pending, &b, 0);
    let polled = pending.poll(&a) == Some((0, true));
    let again = waits(&mut pending, &a, 65) && is_dropped(&mut pending, &a, 66);
    assert!(rt; full && beside && polled && again && pending.dropped() == 2);
    Ok(())
}

#[test]
fn the_257th_address_is_dropped(rt: HostRuntime) -> Result<(), Fail> {
    let mut pending: Pending<u16> = Pending::new(rt.alloc());
    let all = each_waits(&mut pending, rt.alloc(), 256)?;
    let another = nth_uri(rt.alloc(), 256)?;
    assert!(rt; all && is_dropped(&mut pending, &another, 256) && pending.dropped() == 1);
    Ok(())
}

// An address whose last packet was polled leaves its place to another one.
#[test]
fn an_emptied_place_is_taken_again(rt: HostRuntime) -> Result<(), Fail> {
    let mut pending: Pending<u16> = Pending::new(rt.alloc());
    let all = each_waits(&mut pending, rt.alloc(), 256)?;
    let another = nth_uri(rt.alloc(), 256)?;
    let seventh = nth_uri(rt.alloc(), 7)?;
    let emptied = waits(&mut pending, &seventh, 300) && gives(&mut pending, &seventh, &[7, 300]);
    let taken = waits(&mut pending, &another, 256) && gives(&mut pending, &another, &[256]);
    let back = waits(&mut pending, &seventh, 301) && gives(&mut pending, &seventh, &[301]);
    assert!(rt; all && emptied && taken && back);
    Ok(())
}

// Fills a queue and polls it to its end so many times. Whether it gives what was put each time.
fn begins_anew(pending: &mut Pending<u16>, address: &Uri, times: u16) -> bool {
    let mut all = true;
    for _ in 0..times {
        all = all & all_wait(pending, address, 2);
        all = all & gives(pending, address, &[0, 1]);
    }
    all
}

// A queue that was polled to its end begins anew, however often.
#[test]
fn what_was_emptied_begins_anew(rt: HostRuntime) -> Result<(), Fail> {
    let mut pending: Pending<u16> = Pending::new(rt.alloc());
    let a = uri(rt.alloc(), "urn:a")?;
    assert!(rt; begins_anew(&mut pending, &a, 300) && pending.dropped() == 0);
    Ok(())
}

// Room for an address changes nothing that waits, and goes with what is put or forgotten.
#[test]
fn room_for_an_address_is_no_packet(rt: HostRuntime) -> Result<(), Fail> {
    let mut pending: Pending<u16> = Pending::new(rt.alloc());
    let a = uri(rt.alloc(), "urn:a")?;
    pending.reserve(&a)?;
    let none = is_first(&pending, &a, None);
    let put = waits(&mut pending, &a, 1) && is_first(&pending, &a, Some((1, false)));
    pending.reserve(&a)?;
    pending.forget();
    assert!(rt; none && put && pending.dropped() == 0 && gives(&mut pending, &a, &[1]));
    Ok(())
}
