//! Lists whose elements have a key, by which they ascend strictly.
ghost use Rattle.std.specs.Prelude.{◌≡◌, IsTrue, MatchResult, OnErr, OnOk, is_some, option_copied};
ghost use Rattle.mapi_values.specs.Keyed.{IsGap, IsHere, drop_key, find_key, keys_ascend, put_key};

use std::alloc::AllocError;

/// An element of a list that ascends strictly by a key.
pub trait Keyed {
    ghost use Rattle.std.specs.Prelude.{ℕ};

    ghost key_of: { Self → ℕ };

    /// The key.
    fn key(&self) -> u32
        ensures { result ≡ key_of self.now };
}

/// Where the element with this key stands, or else where one with it would.
fn place<T: Keyed>(items: &[T], key: u32) -> Result<usize, usize>
    requires { IsTrue (keys_ascend T.key_of 0 items.now) }
    ensures { MatchResult result (IsHere T.key_of key items.now) (IsGap T.key_of key items.now) }
{
    items.binary_search_by_key(&key, |item| item.key())
}

/// The element with this key.
pub fn find_keyed<T: Keyed>(items: &[T], key: u32) -> Option<&T>
    requires { IsTrue (keys_ascend T.key_of 0 items.now) }
    ensures { option_copied result ≡ find_key T.key_of key items.now }
{
    match place(items, key) {
        Ok(i) => Some(&items[i]),
        Err(_) => None,
    }
}

/// Puts an element in place of the one with its key, or else where its key comes. An `Err` changes nothing.
pub fn put_keyed<T: Keyed + Drop>(items: &mut Vec<T>, item: T) -> Result<(), AllocError>
    requires { IsTrue (keys_ascend T.key_of 0 items.old.items) }
    ensures ok { OnOk result (items.new.items ≡ put_key T.key_of item items.old.items) }
    ensures err { OnErr result (items.new.items ≡ items.old.items) }
{
    match place(items.as_slice(), item.key()) {
        Ok(i) => {
            items[i] = item;
            Ok(())
        }
        Err(i) => {
            items.insert(i, item)?;
            Ok(())
        }
    }
}

/// Removes the element with this key, and says whether there was one. Takes no memory.
pub fn drop_keyed<T: Keyed + Drop>(items: &mut Vec<T>, key: u32) -> bool
    requires { IsTrue (keys_ascend T.key_of 0 items.old.items) }
    ensures others { items.new.items ≡ drop_key T.key_of key items.old.items }
    ensures found { result ≡ is_some (find_key T.key_of key items.old.items) }
{
    match place(items.as_slice(), key) {
        Ok(i) => {
            let _dropped = items.remove(i);
            true
        }
        Err(_) => false,
    }
}
