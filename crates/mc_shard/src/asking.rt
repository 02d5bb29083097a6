// The requests of askers, each made once.

ghost use Rattle.std.specs.Prelude.{◌≡◌, None};
ghost use Rattle.mc_shard.specs.Refusals.{IsAskedOrder};
ghost use Rattle.mc_shard.specs.States.{FitsAsked, asked_after};

use crate::entry::Asked;

/// How a request stands to the last of its asker.
#[derive(Clone, Copy, Debug)]
pub enum AskedOrder {
    /// It is the next one, or no asker's.
    Next,
    /// It was made already.
    Had,
    /// It is a later one.
    TooEarly,
    /// There is no such asker.
    Unknown,
}

/// How a request stands, where these are the last ones.
pub fn asked_order(last: &Vec<u64>, asked: Option<Asked>) -> AskedOrder
    ensures { IsAskedOrder result last.now.items asked }
{
    let Some(asked) = asked else {
        return AskedOrder::Next;
    };
    if asked.asker as usize >= last.len() {
        return AskedOrder::Unknown;
    }
    let had = last[asked.asker as usize];
    if asked.number <= had {
        return AskedOrder::Had;
    }
    if asked.number - had > 1 {
        return AskedOrder::TooEarly;
    }
    AskedOrder::Next
}

/// A request is the last of its asker now.
pub fn raise_asker(last: &mut Vec<u64>, asked: Option<Asked>)
    requires { FitsAsked last.old.items asked None }
    ensures { last.new.items ≡ asked_after last.old.items asked }
{
    if let Some(asked) = asked {
        last[asked.asker as usize] = asked.number;
    }
}
