// Why a session does not come to an end.
use book::BookFault;
use charges::SettingFault;
use std::alloc::AllocError;

#[derive(Clone, Copy)]
pub(crate) enum Halt {
    // The book refused its owners.
    SetUp(BookFault),
    // A charge refused its setting.
    Setting(SettingFault),
    Memory(AllocError),
}

// As it is: the derives of another crate are no plainer than three short impls that no one outside sees.
impl From<BookFault> for Halt {
    fn from(fault: BookFault) -> Halt {
        Halt::SetUp(fault)
    }
}

impl From<SettingFault> for Halt {
    fn from(fault: SettingFault) -> Halt {
        Halt::Setting(fault)
    }
}

impl From<AllocError> for Halt {
    fn from(error: AllocError) -> Halt {
        Halt::Memory(error)
    }
}
