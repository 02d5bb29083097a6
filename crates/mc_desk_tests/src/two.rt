// Lists of two.

ghost use Rattle.std.specs.Prelude.{◌≡◌, ◌∷◌, [], length, OnOk};

use std::alloc::AllocError;

/// Both items, which leaves an empty list.
pub fn take_two<T>(list: &mut Vec<T>) -> (T, T)
    requires { length list.old.items ≡ 2 }
    ensures items { list.old.items ≡ result.0 ∷ result.1 ∷ [] }
    ensures empty { list.new.items ≡ [] }
{
    let Some(second) = list.pop() else {
        unreachable!()
    };
    let Some(first) = list.pop() else {
        unreachable!()
    };
    (first, second)
}

/// Both items, put into an empty list.
pub fn put_two<T: Drop>(list: &mut Vec<T>, first: T, second: T) -> Result<(), AllocError>
    requires { list.old.items ≡ [] }
    ensures { OnOk result (list.new.items ≡ first ∷ second ∷ []) }
{
    list.push(first)?;
    list.push(second)?;
    Ok(())
}
