//! Whether keys of two parts all differ.
ghost use Rattle.std.specs.Prelude.{◌≡◌, IfOk};
ghost use Rattle.soap_document.specs.Profile.Keys.{differ, key_of, keys_of, starts_other, neighbours_differ};

use rm_base::Memory;

pub(crate) fn all_differ(keys: Vec<(&[u8], &[u8])>) -> Result<bool, Memory>
    ensures { IfOk result (λ answer. answer ≡ differ (keys_of keys.entry.items)) }
{
    let mut keys = keys;
    keys.sort()?;
    Ok(neighbours_differ(keys.as_slice()))
}

// No key stands right behind the same: of keys in order, they all differ then.
fn neighbours_differ(keys: &[(&[u8], &[u8])]) -> bool
    ensures { result ≡ neighbours_differ (keys_of keys.now) }
{
    let mut rest = keys;
    while let [first, others @ ..] = rest {
        if !starts_other(*first, others) {
            return false;
        }
        rest = others;
    }
    true
}

// The first key is another than this.
fn starts_other(key: (&[u8], &[u8]), keys: &[(&[u8], &[u8])]) -> bool
    ensures { result ≡ starts_other (key_of key.entry) (keys_of keys.now) }
{
    match keys {
        [first, ..] => first.0 != key.0 || first.1 != key.1,
        [] => true,
    }
}
