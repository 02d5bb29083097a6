//! What a run reports at its settles.
ghost use Rattle.std.specs.Prelude.{◌≡◌, ◌++◌, ◌<◌, All, IfOk, OnOk, length};
ghost use Rattle.mc_conf.specs.Printed.{AreNamedEnds, print_conf};
ghost use Rattle.mc_table.specs.Shown.{IsNamedView, print_settle};
ghost use Rattle.mc_table.specs.Summaries.{print_summary};
ghost use Rattle.mc_top.specs.Printed.{opening_text};
ghost use Rattle.mc_top.specs.Shown.{HasNamedBox, print_report};
ghost use Rattle.mc_top.specs.Summaries.{heading_text};

use mc_conf::print_conf;
use mc_table::{print_summary, put_line, put_settle};
use mc_text::Names;
use mc_view::PathView;
use mc_world::World;
use std::alloc::{AllocError, Global};

/// What is printed at each settle of a run, and in front of the first.
#[derive(Clone, Copy, Debug, PartialEq, Eq)]
pub enum Report {
    /// Each path, and who hears what on it.
    Paths,
    /// Counts of them alone. In front stand the words that ask for it, and how many boxes and channels there are.
    Summary { number: u32, size: u32 },
    /// Each path, and who hears what on it, and then whom a mixer at a box would let each party hear.
    Conference { who: u32 },
}

/// Appends what is reported at a settle, by its number and the paths that are shown.
pub fn put_report(
    alloc: Global,
    report: Report,
    names: &Names,
    number: u32,
    views: &[PathView],
    out: &mut Vec<u8>,
) -> Result<(), AllocError>
    requires views { All (IsNamedView names.now) views.now }
    requires ends { All (AreNamedEnds names.now) views.now }
    requires who { HasNamedBox names.now report }
    ensures { OnOk result (out.new.items ≡ out.old.items ++ print_report report names.now number views.now) }
{
    match report {
        Report::Paths => put_settle(alloc, names, number, views, out),
        Report::Summary { .. } => put_summary(alloc, number, views, out),
        Report::Conference { who } => put_conference(alloc, names, who, number, views, out),
    }
}

// Appends the line that sums a settle up.
fn put_summary(
    alloc: Global,
    number: u32,
    views: &[PathView],
    out: &mut Vec<u8>,
) -> Result<(), AllocError>
    ensures { OnOk result (out.new.items ≡ out.old.items ++ print_summary number views.now) }
{
    let line = print_summary(alloc, number, views)?;
    out.extend_from_slice(&line)
}

// Appends the paths of a settle, and then the conference at a box.
fn put_conference(
    alloc: Global,
    names: &Names,
    who: u32,
    number: u32,
    views: &[PathView],
    out: &mut Vec<u8>,
) -> Result<(), AllocError>
    requires views { All (IsNamedView names.now) views.now }
    requires ends { All (AreNamedEnds names.now) views.now }
    requires who { who < length names.now.boxes }
    ensures { OnOk result (out.new.items
        ≡ out.old.items ++ print_settle names.now number views.now ++ print_conf names.now who views.now) }
{
    put_settle(alloc, names, number, views, out)?;
    let conference = print_conf(alloc, names, who, views)?;
    out.extend_from_slice(&conference)
}

/// What stands in front of the first settle of a world.
pub fn print_opening(alloc: Global, report: Report, world: &World) -> Result<Vec<u8>, AllocError>
    ensures { IfOk result (λ text. text.items ≡ opening_text report world.now) }
{
    match report {
        Report::Paths => Ok(Vec::new(alloc)),
        Report::Summary { number, size } => print_heading(alloc, number, size, world),
        Report::Conference { .. } => Ok(Vec::new(alloc)),
    }
}

// The words that ask for summaries, and how many boxes and channels there are.
fn print_heading(
    alloc: Global,
    number: u32,
    size: u32,
    world: &World,
) -> Result<Vec<u8>, AllocError>
    ensures { IfOk result (λ text. text.items ≡ heading_text number size world.now) }
{
    let number = format!(in alloc; "{number}")?;
    let size = format!(in alloc; "{size}")?;
    let boxes = format!(in alloc; "{}", world.boxes().len())?;
    let channels = format!(in alloc; "{}", world.channel_count())?;
    let mut text = Vec::new(alloc);
    put_line(b"gen", &[number.as_bytes(), size.as_bytes()], &mut text)?;
    put_line(
        b"boxes",
        &[boxes.as_bytes(), b"channels", channels.as_bytes()],
        &mut text,
    )?;
    Ok(text)
}
