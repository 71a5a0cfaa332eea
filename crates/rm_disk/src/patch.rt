//! Bytes that are copied or written over others, in the room that there is.

ghost use Rattle.std.specs.Prelude.{◌≡◌, ℕ, ◌+◌, ◌<◌, ◌≤◌, length, slice_index, vec_len, vec_capacity, if◌then◌else◌};
ghost use Rattle.rm_disk.specs.Call.{is_within, is_written, overwritten};

fn copy_range(target: &mut [u8], at: usize, count: usize, source: &[u8])
    requires { length target.old ≤ length source.now }
    ensures { (i : ℕ) → i < length target.old →
        slice_index target.new i ≡ (if is_within i (at, count) then slice_index source.now i else slice_index
        target.old i) }
{
    let end = at.saturating_add(count).min(target.len());
    if at < end {
        target[at..end].copy_from_slice(&source[at..end]);
    }
}

fn patch_slice(target: &mut [u8], ranges: &[(usize, usize)], source: &[u8])
    requires { length target.old ≤ length source.now }
    ensures { (i : ℕ) → i < length target.old →
        slice_index target.new i ≡ (if is_written ranges.now i then slice_index source.now i else slice_index
        target.old i) }
{
    for &(at, count) in ranges {
        copy_range(target, at, count, source);
    }
}

/// Copies the ranges from the source, as far as the target goes.
pub fn patch(target: &mut Vec<u8>, ranges: &[(usize, usize)], source: &[u8])
    requires { length target.old.items ≤ length source.now }
    ensures each { (i : ℕ) → i < length target.old.items →
        slice_index target.new.items i ≡ (if is_written ranges.now i then slice_index source.now i else slice_index
        target.old.items i) }
    ensures length { length target.new.items ≡ length target.old.items }
    ensures len { vec_len target.new ≡ vec_len target.old }
    ensures capacity { vec_capacity target.new ≡ vec_capacity target.old }
{
    patch_slice(target, ranges, source);
}

/// Writes over what is there, and past the end, in the room that there is.
pub fn overwrite(file: &mut Vec<u8>, at: usize, bytes: &[u8])
    requires within { at ≤ vec_len file.old }
    requires room { vec_len file.old + length bytes.now ≤ vec_capacity file.old }
    ensures bytes { file.new.items ≡ overwritten file.old.items at bytes.now }
    ensures capacity { vec_capacity file.old ≤ vec_capacity file.new }
{
    if bytes.len() <= file.len() - at {
        file[at..at + bytes.len()].copy_from_slice(bytes);
        return;
    }
    file.truncate(at);
    file.extend_from_slice(bytes).unwrap();
}
