//! Why a name can't be added.

use std::alloc::AllocError;

/// Why a name isn't added to its list. Nothing has changed then.
#[derive(Debug, Drop)]
pub enum NameFault {
    /// The list has the name.
    Used,
    /// The list has as many names as it may have, and not this one.
    TooMany,
    /// Memory ran out.
    NoMemory(AllocError),
}
