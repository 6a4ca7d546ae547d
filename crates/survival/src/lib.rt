//! The word of a block, and how much damage to the block it survives.
#![tactic(auto)]

ghost use Rattle.std.specs.Prelude.{◌≡◌};
ghost use Rattle.measure.specs.Levels.{levels_means};
ghost use Rattle.trellis.specs.Answers.{work_fault, Searched};
ghost use Rattle.survival.specs.Distance.{Seven};
ghost use Rattle.survival.specs.Survival.{Survives, UndamagedMarks, UndamagedLevels};

use fault::Fault;
use layout::Block;
use measure::MutedMarks;
use measure::levels::Levels;
use trellis::search::{Found, search};
use trellis::work::Work;

#[cfg(test)]
mod tests;

/// The word of a block whose readings are marks, some of them muted.
pub fn read_marks<M: MutedMarks>(
    m: &M,
    block: Block,
    readings: &[u8],
    work: &mut Work<u16>,
) -> Result<Found<u16>, Fault>
    ensures searched { Searched M.Measure.means m.now block readings.now (work_fault readings.now work.old) result }
    ensures survives { Survives (M.MutedMarks.muted m.now) block readings.now (work_fault readings.now work.old) result }
    ensures undamaged { UndamagedMarks (M.MutedMarks.muted m.now) block readings.now (work_fault readings.now work.old) result }
    ensures distance { Seven }
    ensures kept { work.new ≡ work.old }
{
    search(m, block, readings, work)
}

// No twin of the one for marks: what damage a block bears is claimed of marks alone.
/// The word of a block whose readings are levels.
pub fn read_levels(
    block: Block,
    readings: &[i16],
    work: &mut Work<u64>,
) -> Result<Found<u64>, Fault>
    ensures searched { Searched levels_means (record {}) block readings.now (work_fault readings.now work.old) result }
    ensures undamaged { UndamagedLevels block readings.now (work_fault readings.now work.old) result }
    ensures kept { work.new ≡ work.old }
{
    search(&Levels, block, readings, work)
}
