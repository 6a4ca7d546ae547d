//! The FICH of a frame of readings.
ghost use Rattle.std.specs.Prelude.{◌≡◌, ◌≤◌, length};
ghost use Rattle.fault.specs.Faults.{refused_or};
ghost use Rattle.receive.specs.Reading.{first_improper, frame_fault, fich_answer, HeardFich, FichSurvives};

use crate::words::fich_of_word;
use fault::Fault;
use fields::fich::Fich;
use layout::Block;
use measure::{Measure, MutedMarks};
use trellis::search::search;
use trellis::work::Work;

/// Refuses the first reading that is not proper.
fn check_proper<M: Measure>(m: &M, readings: &[M::Reading]) -> Result<(), Fault>
    requires { length readings.now ≤ 480 }
    ensures { result ≡ refused_or (first_improper (M.means.proper m.now) 0 readings.now) tt }
{
    // A loop with its index, since the place is named.
    for (place, reading) in readings.iter().enumerate() {
        if !m.proper(reading) {
            return Err(Fault::Improper(place as u16));
        }
    }
    Ok(())
}

/// The FICH of a frame of readings, or why there is none.
pub fn read_fich<M: Measure>(
    m: &M,
    readings: &[M::Reading],
    work: &mut Work<M::Total>,
) -> Result<Fich, Fault>
    ensures value { result ≡ fich_answer M.means m.now readings.now work.old }
    ensures law { HeardFich M.means m.now readings.now (frame_fault M.means m.now readings.now work.old) result }
    ensures kept { work.new ≡ work.old }
{
    work.check_sizes(readings.len())?;
    check_proper(m, readings)?;
    let found = search(m, Block::Fich, readings, work)?;
    fich_of_word(&found.word)
}

// A function of its own beside `read_fich`, since its theorem needs marks.
/// The FICH of a frame of marks, some of them muted: as it was sent, where the damage is small enough.
pub fn read_fich_marks<M: MutedMarks>(
    m: &M,
    readings: &[u8],
    work: &mut Work<u16>,
) -> Result<Fich, Fault>
    ensures value { result ≡ fich_answer M.Measure.means m.now readings.now work.old }
    ensures law { HeardFich M.Measure.means m.now readings.now (frame_fault M.Measure.means m.now readings.now work.old) result }
    ensures survives { FichSurvives (M.MutedMarks.muted m.now) readings.now (frame_fault M.Measure.means m.now readings.now work.old) result }
    ensures kept { work.new ≡ work.old }
{
    read_fich(m, readings, work)
}
