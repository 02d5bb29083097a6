// Where boxes stand.

ghost use Rattle.std.specs.Prelude.{◌≡◌, ◌<◌, ◌^◌, length, replicate, All, IfOk};
ghost use Rattle.mc_part.specs.DividedParts.{AreNumbersIn, counts_of};

use std::alloc::{AllocError, Global};

/// Where boxes stand: of each box its number in its part, and of each part how many boxes it has.
#[derive(Debug, Drop)]
pub struct Homes {
    pub numbers: Vec<u32>,
    pub counts: Vec<u32>,
}

/// Where boxes stand that are assigned to so many parts. It fails only for want of memory.
pub fn homes_of(alloc: Global, assigned: &[u32], count: usize) -> Result<Homes, AllocError>
    requires parts { All (λ part. part < count) assigned.now }
    requires few { length assigned.now < 2 ^ 32 }
    ensures numbers { IfOk result (λ homes. AreNumbersIn assigned.now homes.numbers.items) }
    ensures counts { IfOk result (λ homes. homes.counts.items ≡ counts_of assigned.now count) }
{
    let mut counts = zeros(alloc, count)?;
    let mut numbers = Vec::new(alloc);
    for who in 0..assigned.len() {
        let part = assigned[who] as usize;
        let number = counts[part];
        numbers.push(number)?;
        counts[part] = number + 1;
    }
    Ok(Homes { numbers, counts })
}

// So many zeros.
fn zeros(alloc: Global, count: usize) -> Result<Vec<u32>, AllocError>
    ensures { IfOk result (λ counts. counts.items ≡ replicate count 0) }
{
    vec![in alloc; 0; count]
}
