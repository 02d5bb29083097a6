// Why a line isn't taken.

ghost use Rattle.std.specs.Prelude.{◌≡◌, alloc_error};
ghost use Rattle.mc_text.specs.declared.name_fault.NameFault.TheVariants as name;
ghost use Rattle.mc_program_lines.specs.Readings.{IsWanting, name_refusal};
ghost use Rattle.mc_program_lines.specs.declared.fault.ReadFault.TheVariants as read;

use mc_script::LineFault;
use mc_script::rule::{GIVEN_TWICE, LIMIT_PASSED};
use mc_text::NameFault;
use std::alloc::{AllocError, AllocFailed};

/// Why a line isn't taken: the rule that it breaks, or want of memory.
#[derive(Debug, Drop)]
pub enum ReadFault {
    /// The line breaks a rule.
    Line(LineFault),
    /// Memory ran out.
    NoMemory(AllocError),
}

impl From<LineFault> for ReadFault {
    ghost from_gives = { λ e fault. fault ≡ read.Line e };

    fn from(e: LineFault) -> Self {
        ReadFault::Line(e)
    }
}

impl From<AllocError> for ReadFault {
    ghost from_gives = { λ e fault. fault ≡ read.NoMemory e };

    fn from(e: AllocError) -> Self {
        ReadFault::NoMemory(e)
    }
}

impl<T: Drop> From<AllocFailed<T>> for ReadFault {
    ghost from_gives = { λ _ fault. fault ≡ read.NoMemory alloc_error };

    fn from(e: AllocFailed<T>) -> Self {
        ReadFault::NoMemory(AllocError::from(e))
    }
}

impl From<NameFault> for ReadFault {
    ghost from_gives = { λ e fault. fault ≡ name_refusal e };

    fn from(e: NameFault) -> Self {
        match e {
            NameFault::Used => ReadFault::Line(LineFault {
                number: GIVEN_TWICE,
            }),
            NameFault::TooMany => ReadFault::Line(LineFault {
                number: LIMIT_PASSED,
            }),
            NameFault::NoMemory(e) => ReadFault::NoMemory(e),
        }
    }
}

/// Want of memory, where a name that may be added is refused.
pub fn name_wanting(fault: NameFault) -> AllocError
    requires { IsWanting fault }
    ensures { fault ≡ name.NoMemory result }
{
    match fault {
        NameFault::NoMemory(e) => e,
        NameFault::Used | NameFault::TooMany => unreachable!(),
    }
}
