//! A plain program for timers: one list in the order of the last move.
ghost use Rattle.std.specs.Prelude.{◌<◌, length, IfSome};

use timers::slots::Key;

/// A key that waits: its slot, its class and when it is due.
#[derive(Clone, Copy)]
pub struct Plain {
    pub slot: u32,
    pub key: Key,
    pub class: u32,
    pub due: u64,
}

// Milliseconds to wait after an emission into a class.
pub fn delay(class: u32) -> u64 {
    let delays = [0, 2000, 4000, 8000, 16000, 32000, 64000];
    delays[class.min(6) as usize]
}

// Where the k-th entry stands that is due, by class and then by place.
pub fn place_of_nth(plain: &Vec<Plain>, time: u64, k: u32) -> Option<usize>
    ensures { IfSome result (λ i. i < length plain.now.items) }
{
    let mut left = k;
    for class in 0..7u32 {
        for i in 0..plain.len() {
            let entry = &plain[i];
            if entry.class == class && entry.due <= time {
                if left == 0 {
                    return Some(i);
                }
                left -= 1;
            }
        }
    }
    None
}
