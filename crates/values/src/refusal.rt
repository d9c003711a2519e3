//! Why a call is turned down.
ghost use Rattle.std.specs.Prelude.{◌≡◌};
ghost use Rattle.values.specs.Refusals.{number_of};

use thiserror::Error;

/// The reasons for turning a call down, by the numbers under which callers know them. A refusal
/// shows its number and its reason, as `24 number beyond its limit`.
#[derive(Clone, Copy, PartialEq, Eq, Debug, Error)]
pub enum Refusal {
    #[error("{} not a valid name", self.number())]
    InvalidName = 1,
    #[error("{} block number above 63", self.number())]
    BlockNumberTooLarge = 2,
    #[error("{} not 1 to 64 bytes", self.number())]
    InvalidLength = 3,
    #[error("{} buffer too short", self.number())]
    BufferTooShort = 4,
    #[error("{} moment above now or not kept", self.number())]
    MomentNotKept = 5,
    #[error("{} no such directory", self.number())]
    NoSuchDirectory = 6,
    #[error("{} no such name", self.number())]
    NoSuchName = 7,
    #[error("{} no such file", self.number())]
    NoSuchFile = 8,
    #[error("{} no such block", self.number())]
    NoSuchBlock = 9,
    #[error("{} directory not empty", self.number())]
    DirectoryNotEmpty = 10,
    #[error("{} name in use", self.number())]
    NameInUse = 11,
    #[error("{} a directory stays in its directory", self.number())]
    DirectoryWouldMove = 12,
    #[error("{} file stands under another name", self.number())]
    FileElsewhere = 13,
    #[error("{} all object numbers given", self.number())]
    ObjectsExhausted = 14,
    #[error("{} all moments spent", self.number())]
    MomentsExhausted = 15,
    #[error("{} name history full", self.number())]
    NamesFull = 16,
    #[error("{} block versions full", self.number())]
    BlocksFull = 17,
    #[error("{} entry number not above the last", self.number())]
    EntryNotAboveLast = 18,
    #[error("{} store full", self.number())]
    StoreFull = 19,
    #[error("{} no such entry", self.number())]
    NoSuchEntry = 20,
    #[error("{} moment too low or already used for this key", self.number())]
    MomentTaken = 21,
    #[error("{} history full", self.number())]
    HistoryFull = 22,
    #[error("{} no such version", self.number())]
    NoSuchVersion = 23,
    #[error("{} number beyond its limit", self.number())]
    BeyondLimit = 24,
}

impl Refusal {
    /// The number by which callers know this refusal.
    pub fn number(self) -> u8
        ensures { result ≡ number_of self }
    {
        self as u8
    }
}
