//! Every frame of a recording, accepted or refused.
#![tactic(auto)]

ghost use Rattle.std.specs.Prelude.{◌≡◌, ◌∷◌, ◌++◌, []};
ghost use Rattle.fault.specs.Faults.{refused_or};
ghost use Rattle.entries.specs.Lines.{accepted, refused};
ghost use Rattle.entries.specs.Lists.{listed, SameSlots};
ghost use Rattle.index.specs.Index.{room, recorded, fitting, full_fault, kept_lines, index_fault, Indexed};

use entries::bounded::BoundedList;
use entries::entry::{Entry, FaultEntry, FrameEntry, Line};
use fault::Fault;
use layout::FRAME_PLACES;
use measure::MutedMarks;
use receive::fich::read_fich_marks;
use trellis::work::Work;
use walk::Frames;

// Two arms that make an entry: the entries have two types, and go into two lists.
/// Puts a frame into its list: what was read of it, or why it was refused.
fn note(
    line: Line,
    frames: &mut BoundedList<FrameEntry>,
    faults: &mut BoundedList<FaultEntry>,
) -> Result<(), Fault>
    ensures value { result ≡ refused_or (full_fault (room frames.old) (room faults.old) (line ∷ [])) tt }
    ensures frames { listed frames.new ≡ listed frames.old ++ accepted (fitting (room frames.old) (room faults.old) (line ∷ [])) }
    ensures faults { listed faults.new ≡ listed faults.old ++ refused (fitting (room frames.old) (room faults.old) (line ∷ [])) }
    ensures frame_slots { SameSlots frames.old frames.new }
    ensures fault_slots { SameSlots faults.old faults.new }
{
    let Entry {
        place,
        missed,
        outcome,
    } = line;
    match outcome {
        Ok(fich) => frames.push(Entry {
            place,
            missed,
            outcome: fich,
        }),
        Err(fault) => faults.push(Entry {
            place,
            missed,
            outcome: fault,
        }),
    }
}

/// Notes every frame of a recording of marks, in order: a frame whose FICH is read in `frames`, any other in `faults`.
/// It stops at the first frame whose list is full.
pub fn index<M: MutedMarks>(
    m: &M,
    readings: &[u8],
    work: &mut Work<u16>,
    frames: &mut BoundedList<FrameEntry>,
    faults: &mut BoundedList<FaultEntry>,
) -> Result<(), Fault>
    ensures value { result ≡ refused_or (index_fault work.old (room frames.old) (room faults.old) (recorded M.Measure.means m.now readings.now)) tt }
    ensures frames { listed frames.new ≡ listed frames.old ++ accepted (kept_lines work.old (room frames.old) (room faults.old) (recorded M.Measure.means m.now readings.now)) }
    ensures faults { listed faults.new ≡ listed faults.old ++ refused (kept_lines work.old (room frames.old) (room faults.old) (recorded M.Measure.means m.now readings.now)) }
    ensures law { Indexed (room frames.old) (room faults.old) (recorded M.Measure.means m.now readings.now) }
    ensures frame_slots { SameSlots frames.old frames.new }
    ensures fault_slots { SameSlots faults.old faults.new }
    ensures kept { work.new ≡ work.old }
{
    work.check_sizes(FRAME_PLACES)?;
    for frame in Frames::new(m, readings) {
        let line = Line {
            place: frame.place,
            missed: frame.missed,
            outcome: read_fich_marks(m, frame.readings, work),
        };
        note(line, frames, faults)?;
    }
    Ok(())
}
