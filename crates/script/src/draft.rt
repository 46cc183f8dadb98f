// A script as far as it is read.
ghost use Rattle.std.specs.Prelude.{◌≡◌, cond, is_some, Ok, Err};
ghost use Rattle.script.specs.Answers.{Changes};
ghost use Rattle.script.specs.Commands.{told};
ghost use Rattle.script.specs.Scripts.{blank, finished, meant_by};
ghost use Rattle.script.specs.declared.fault.Wrong.TheVariants.{Repeated};
ghost use Rattle.script.specs.Drafts.{draft_of, with_owners, with_charge, with_layer, with_room, still_open, complete};

use crate::calls::{areas, charge_named, layer, only};
use crate::fault::{Stop, Wrong};
use crate::number::Number;
use crate::script::{Layer, Plain, Script};
use book::Call;
use std::alloc::Global;

#[derive(Drop)]
pub(crate) struct Draft {
    pub(crate) heap: Global,
    pub(crate) owners: Option<Vec<u8>>,
    pub(crate) charge: Option<Plain>,
    pub(crate) layers: Vec<Layer>,
    pub(crate) journal: Option<u16>,
    pub(crate) roll: Option<u16>,
    pub(crate) calls: Vec<Call>,
}

impl Draft {
    pub(crate) fn new(heap: Global) -> Draft
        ensures { draft_of result ≡ blank }
    {
        Draft {
            heap,
            owners: None,
            charge: None,
            layers: Vec::new(heap),
            journal: None,
            roll: None,
            calls: Vec::new(heap),
        }
    }

    // Set-up commands come before all calls.
    pub(crate) fn set_up_is_open(&self) -> Result<(), Wrong>
        ensures { result ≡ still_open (draft_of self.now) }
    {
        if self.calls.is_empty() {
            Ok(())
        } else {
            Err(Wrong::LateSetUp)
        }
    }

    // Calls come after the owners and the charge.
    pub(crate) fn set_up_is_done(&self) -> Result<(), Wrong>
        ensures { result ≡ complete (draft_of self.now) }
    {
        if self.owners.is_none() {
            return Err(Wrong::NoOwners);
        }
        if self.charge.is_none() {
            return Err(Wrong::NoCharge);
        }
        Ok(())
    }

    pub(crate) fn set_owners(&mut self, numbers: &[Number]) -> Result<(), Stop>
        ensures { Changes result (draft_of self.new) (with_owners (draft_of self.old) numbers.now) }
    {
        not_given(&self.owners)?;
        self.owners = Some(areas(self.heap, numbers)?);
        Ok(())
    }

    pub(crate) fn set_charge(&mut self, kind: &[u8], numbers: &[Number]) -> Result<(), Stop>
        ensures { Changes result (draft_of self.new) (with_charge (draft_of self.old) kind.now numbers.now) }
    {
        not_given(&self.charge)?;
        self.charge = Some(charge_named(kind, only(numbers)?)?);
        Ok(())
    }

    pub(crate) fn add_layer(&mut self, numbers: &[Number]) -> Result<(), Stop>
        ensures { Changes result (draft_of self.new) (with_layer (draft_of self.old) numbers.now) }
    {
        if self.charge.is_none() {
            return Err(Stop::Wrong(Wrong::NoCharge));
        }
        if self.layers.len() >= 3 {
            return Err(Stop::Wrong(Wrong::FourthLayer));
        }
        self.layers.push(layer(numbers)?)?;
        Ok(())
    }

    // The script, if it has what it needs: 8,192 entries and 2,427 lines have room where nothing is said of it.
    pub(crate) fn finish(self) -> Result<Script, Wrong>
        ensures { told meant_by result ≡ finished (draft_of self) }
    {
        let Draft {
            heap: _,
            owners,
            charge,
            layers,
            journal,
            roll,
            calls,
        } = self;
        Ok(Script {
            areas: owners.ok_or(Wrong::NoOwners)?,
            charge: charge.ok_or(Wrong::NoCharge)?,
            layers,
            journal: journal.unwrap_or(8192),
            roll: roll.unwrap_or(2427),
            calls,
        })
    }
}

// Each part of the set-up but a layer is given once.
fn not_given<T>(part: &Option<T>) -> Result<(), Wrong>
    ensures { result ≡ cond (is_some part.now) (Err Repeated) (Ok tt) }
{
    if part.is_some() {
        return Err(Wrong::Repeated);
    }
    Ok(())
}

// The room of a journal or a roll, which is given once.
pub(crate) fn set_room(slot: &mut Option<u16>, numbers: &[Number]) -> Result<(), Wrong>
    ensures { told (λ _. slot.new) result ≡ with_room slot.old numbers.now }
{
    not_given(slot)?;
    *slot = Some(only(numbers)?);
    Ok(())
}
