// Whether lists are the same.

ghost use Rattle.std.specs.Prelude.{◌≡◌, map, MatchBool};

// A value that is compared by what clauses see of it.
pub trait Compared {
    // The type of what clauses see.
    ghost Seen: { Type 0 };

    // What clauses see.
    ghost seen: { Self → Seen };

    // Whether the same is seen of both.
    fn is_same(&self, other: &Self) -> bool
        ensures { MatchBool result (seen self.now ≡ seen other.now) (seen self.now ≡ seen other.now → ⊥) };
}

// Whether the same is seen of both lists, element by element.
pub fn are_same<T: Compared>(list: &[T], other: &[T]) -> bool
    ensures { MatchBool result (map T.seen list.now ≡ map T.seen other.now)
        (map T.seen list.now ≡ map T.seen other.now → ⊥) }
{
    if list.len() != other.len() {
        return false;
    }
    for k in 0..list.len() {
        if !list[k].is_same(&other[k]) {
            return false;
        }
    }
    true
}
