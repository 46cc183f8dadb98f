// The first word of a line.
ghost use Rattle.std.specs.Prelude.{◌≡◌};
ghost use Rattle.script.specs.Names.{command_named};

// A part of the set-up.
#[derive(Clone, Copy)]
pub(crate) enum Part {
    Owners,
    Charge,
    Layer,
    Journal,
    Roll,
}

// What is asked of the book.
#[derive(Clone, Copy)]
pub(crate) enum Asked {
    File,
    Read,
    Open,
    Post,
    Withdraw,
    State,
}

// What the first word of a line says: a part of the set-up, or a call.
#[derive(Clone, Copy)]
pub(crate) enum Command {
    SetUp(Part),
    Call(Asked),
}

// The command that a word names.
pub(crate) fn command_named(word: &[u8]) -> Option<Command>
    ensures { result ≡ command_named word.now }
{
    match word {
        b"owners" => Some(Command::SetUp(Part::Owners)),
        b"charge" => Some(Command::SetUp(Part::Charge)),
        b"layer" => Some(Command::SetUp(Part::Layer)),
        b"journal" => Some(Command::SetUp(Part::Journal)),
        b"roll" => Some(Command::SetUp(Part::Roll)),
        b"file" => Some(Command::Call(Asked::File)),
        b"read" => Some(Command::Call(Asked::Read)),
        b"open" => Some(Command::Call(Asked::Open)),
        b"post" => Some(Command::Call(Asked::Post)),
        b"withdraw" => Some(Command::Call(Asked::Withdraw)),
        b"state" => Some(Command::Call(Asked::State)),
        _ => None,
    }
}
