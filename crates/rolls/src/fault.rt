// Why bytes cannot be read as a line, and why a roll does not take one.
ghost use Rattle.std.specs.Prelude.{◌≡◌};
ghost use Rattle.rolls.specs.Meaning.{refusal};

// Why bytes cannot be read as a line.
#[derive(Clone, Copy, PartialEq, Eq, Debug)]
pub enum ArchiveFault {
    // Fewer than 27 bytes are left.
    Short { place: usize },
    // A field's tag or length is not the one that stands there.
    Heading { place: usize },
    // A field's number is outside its limits.
    Value { place: usize },
}

impl ArchiveFault {
    // The number of the refusal.
    pub fn number(&self) -> u8
        ensures { result ≡ (refusal self.now).number }
    {
        match self {
            ArchiveFault::Short { .. } => 19,
            ArchiveFault::Heading { .. } => 20,
            ArchiveFault::Value { .. } => 21,
        }
    }

    // The record's place in the archive, from 0.
    pub fn place(&self) -> usize
        ensures { result ≡ (refusal self.now).place }
    {
        match self {
            ArchiveFault::Short { place }
            | ArchiveFault::Heading { place }
            | ArchiveFault::Value { place } => *place,
        }
    }
}

// Why a roll does not take a line.
#[derive(Clone, Copy, PartialEq, Eq, Debug)]
pub enum RollFault {
    // No line is free.
    Full,
}
