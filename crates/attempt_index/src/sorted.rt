//! Lists that ascend and hold no item twice, searched by halves.

ghost use Rattle.std.specs.Prelude.{◌≡◌, ◌+◌, ◌<◌, ◌≤◌, true, length, IfOk, IfErr, vec_len, vec_capacity};
ghost use Rattle.attempt_index.specs.Ascending.{ascends, place_in, searched, put_in, without_in};

/// What stands in an order.
pub trait Ordered {
    ghost use Rattle.std.specs.Prelude.{◌≡◌, Bool, true};

    /// Whether an item stands before another.
    ghost before: { Self → Self → Bool };

    /// Whether an item stands before another.
    fn is_before(&self, other: &Self) -> bool
        ensures { result ≡ before self.now other.now };

    /// What stands before an item stands before all that the item stands before.
    ghost transitive: { (a b c : Self) → before a b ≡ true → before b c ≡ true → before a c ≡ true };
}

/// The place at which an item stands or belongs, found by halves.
pub fn place_of<T: Ordered>(list: &[T], item: &T) -> usize
    requires ascending { ascends T.before list.now ≡ true }
    ensures place { result ≡ place_in T.before list.now item.now }
    ensures within { result ≤ length list.now }
{
    list.partition_point(|other| other.is_before(item))
}

/// The place at which an item stands, or else the place at which it belongs.
pub fn search<T: Ordered>(list: &[T], item: &T) -> Result<usize, usize>
    requires ascending { ascends T.before list.now ≡ true }
    ensures found { result ≡ searched T.before list.now item.now }
    ensures stands { IfOk result (λ place. place < length list.now) }
    ensures belongs { IfErr result (λ place. place ≤ length list.now) }
{
    let place = place_of(list, item);
    if place < list.len() && !item.is_before(&list[place]) {
        return Ok(place);
    }
    Err(place)
}

/// Puts an item at its place, unless it stands there. There is room for it.
pub fn put<T: Ordered + Drop>(list: &mut Vec<T>, item: T)
    requires ascending { ascends T.before list.old.items ≡ true }
    requires room { length (put_in T.before list.old.items item) ≤ vec_capacity list.old }
    ensures put { list.new.items ≡ put_in T.before list.old.items item }
    ensures ascending { ascends T.before list.new.items ≡ true }
    ensures few { vec_len list.new ≤ vec_len list.old + 1 }
    ensures capacity { vec_capacity list.old ≤ vec_capacity list.new }
{
    if let Err(place) = search(list, &item) {
        list.insert(place, item).unwrap();
    }
}

/// Takes an item away, if it is there.
pub fn drop_item<T: Ordered + Drop>(list: &mut Vec<T>, item: &T)
    requires ascending { ascends T.before list.old.items ≡ true }
    ensures left { list.new.items ≡ without_in T.before list.old.items item.now }
    ensures ascending { ascends T.before list.new.items ≡ true }
    ensures few { vec_len list.new ≤ vec_len list.old }
    ensures capacity { vec_capacity list.old ≤ vec_capacity list.new }
{
    if let Ok(place) = search(list, item) {
        list.remove(place);
    }
}
