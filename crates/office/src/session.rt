// A session: a book is set up, the calls of a script are made, and the answers and the archive are handed out.
use crate::answers::{lay_answers, lay_lines};
use crate::halt::Halt;
use crate::refusal::Refusal;
use book::{Book, BookFault, replay};
use charges::{Charge, Hybrid, SettingFault, Transition, Volumetric};
use rolls::{ArchiveRoll, RECORD_LEN};
use script::{Layer, Plain, Script};
use std::alloc::{AllocError, Global};

#[derive(Drop)]
pub struct Session {
    // What is printed.
    pub text: String,
    // The roll's records; none where the set-up was refused.
    pub archive: Option<Vec<u8>>,
}

// Runs the calls of a script under a charge.
fn run<C: Charge + Drop>(heap: Global, script: &Script, charge: C) -> Result<Session, Halt> {
    let mut journal = Vec::new(heap);
    journal.reserve_exact(usize::from(script.journal))?;
    let mut bytes = vec![in heap; 0u8; usize::from(script.roll) * RECORD_LEN]?;
    let mut answers = vec![in heap; Err(BookFault::Owners); script.calls.len()]?;
    let mut roll = ArchiveRoll::new(&mut bytes);
    replay(
        &script.areas,
        charge,
        &mut journal,
        &mut roll,
        &script.calls,
        &mut answers,
    )?;
    let mut text = String::new(heap);
    lay_answers(&mut text, script.areas.len(), &script.calls, &answers)?;
    lay_lines(&mut text, &roll)?;
    let archive = Vec::from_slice(heap, roll.written())?;
    Ok(Session {
        text,
        archive: Some(archive),
    })
}

// A layer on the charge below.
fn over<C: Charge + Drop>(layer: &Layer, below: C) -> Result<Transition<C>, SettingFault> {
    Transition::new(below, layer.tenths, layer.caps)
}

// Puts the layers of a script on its charge, and runs it.
fn run_layered<C: Charge + Drop>(
    heap: Global,
    script: &Script,
    charge: C,
) -> Result<Session, Halt> {
    match script.layers.as_slice() {
        [] => run(heap, script, charge),
        [a] => run(heap, script, over(a, charge)?),
        [a, b] => run(heap, script, over(b, over(a, charge)?)?),
        [a, b, c, ..] => run(heap, script, over(c, over(b, over(a, charge)?)?)?),
    }
}

fn run_charged(heap: Global, script: &Script) -> Result<Session, Halt> {
    match script.charge {
        Plain::Volumetric(tenths) => run_layered(heap, script, Volumetric::new(tenths)?),
        Plain::Hybrid(percent) => run_layered(heap, script, Hybrid::new(percent)?),
    }
}

// What a refused set-up tells: the owners are looked at before any setting.
fn set_up_refusal(script: &Script, halt: Halt) -> Result<Refusal, AllocError> {
    match halt {
        Halt::SetUp(fault) => Ok(fault.into()),
        Halt::Setting(fault) => {
            if let Ok(plain) = Volumetric::new(0)
                && let Err(owners) = Book::new(&script.areas, plain)
            {
                return Ok(owners.into());
            }
            Ok(fault.into())
        }
        Halt::Memory(error) => Err(error),
    }
}

// Holds the session that a script describes.
pub fn hold(heap: Global, script: &Script) -> Result<Session, AllocError> {
    run_charged(heap, script).or_else(|halt| {
        let Refusal { number, .. } = set_up_refusal(script, halt)?;
        Ok(Session {
            text: format!(in heap; "setup refused {number}\n")?,
            archive: None,
        })
    })
}
