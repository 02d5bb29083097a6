//! What an export answers, and what that says.

ghost use Rattle.std.specs.Prelude.{◌≡◌, IfSome, is_some};
ghost use Rattle.mc_shard_c.specs.Texts.{code_of, is_code, text_of};

use mc_plain::answer as plain;
use mc_shard::Refused;

/// It was done.
pub const OK: u32 = 0;

/// The shard has no such box.
pub const NO_BOX: u32 = 1;

/// There is no memory.
pub const MEMORY: u32 = 3;

/// The numbers say no shard, request, signal or code.
pub const INVALID: u32 = 4;

/// The box has no such slot.
pub const NO_SLOT: u32 = 5;

/// The slot can't take the signal.
pub const UNLAWFUL: u32 = 6;

/// The event can't happen now.
pub const DISABLED: u32 = 7;

/// The slot's descriptor has the last version that there is.
pub const VERSION_END: u32 = 8;

/// The buffer has too few places.
pub const NO_ROOM: u32 = 9;

/// The handle has no shard.
pub const NO_SHARD: u32 = 10;

/// The handle has a shard already.
pub const HAS_SHARD: u32 = 11;

/// An entry waits.
pub const WAITS: u32 = 12;

/// No entry waits.
pub const NONE_WAITS: u32 = 13;

/// The shard has no such asker.
pub const NO_ASKER: u32 = 14;

/// The shard has no such channel end.
pub const NO_END: u32 = 15;

/// No slot is at this tunnel of the channel end.
pub const NO_TUNNEL: u32 = 16;

/// It is a later one than the next.
pub const AHEAD: u32 = 17;

/// The digest doesn't go on from the last one.
pub const DIGEST: u32 = 18;

/// There is no stamp for the turn.
pub const STAMP: u32 = 19;

/// The bytes begin with no entry.
pub const NO_ENTRY: u32 = 20;

/// The entry isn't the one that the boxes make.
pub const DIFFERS: u32 = 21;

/// The bytes are no shard's snapshot.
pub const NO_SNAPSHOT: u32 = 22;

/// The code of a shard's refusal.
pub fn code_of(why: Refused) -> u32
    ensures { result ≡ code_of why }
{
    match why {
        Refused::NoBox => NO_BOX,
        Refused::NoAsker => NO_ASKER,
        Refused::NoEnd => NO_END,
        Refused::NoTunnel => NO_TUNNEL,
        Refused::NotEnabled => DISABLED,
        Refused::VersionEnd => VERSION_END,
        Refused::Unlawful => UNLAWFUL,
        Refused::Ahead => AHEAD,
        Refused::Digest => DIGEST,
        Refused::Stamp => STAMP,
        Refused::Differs => DIFFERS,
        Refused::NoMemory => MEMORY,
    }
}

/// What a code says, in at most 47 bytes.
pub fn text(code: u32) -> Option<&'static str>
    ensures says { IfSome result (λ text. text.now ≡ text_of code) }
    ensures reads { is_some result ≡ is_code code }
{
    match code {
        NO_SHARD => Some("there is no shard"),
        HAS_SHARD => Some("there is a shard already"),
        WAITS => Some("an entry waits"),
        NONE_WAITS => Some("no entry waits"),
        NO_ASKER => Some("there is no such asker"),
        NO_END => Some("there is no such channel end"),
        NO_TUNNEL => Some("no slot has this tunnel of the channel end"),
        AHEAD => Some("it isn't the next, but a later one"),
        DIGEST => Some("the digest doesn't go on from the last one"),
        STAMP => Some("there is no stamp for the turn"),
        NO_ENTRY => Some("the bytes don't begin with an entry"),
        DIFFERS => Some("the boxes don't make this entry"),
        NO_SNAPSHOT => Some("the bytes are no snapshot"),
        _ => plain::text(code),
    }
}
