// Why something is refused: document 01's reasons with their numbers, and a refusal: its reason, the file's index and the place.
ghost use Rattle.std.specs.Prelude.{◌≡◌};
ghost use Rattle.types.specs.Refusals.{number_of, refusal};

// The reasons, in the order of their numbers.
#[derive(Clone, Copy, Debug, PartialEq, Eq)]
pub enum Reason {
    // One file.
    TooLarge = 1,
    TooSmall = 2,
    Signature = 3,
    Version = 4,
    HashVersion = 5,
    IndexCut = 6,
    IndexId = 7,
    IndexRepeated = 8,
    IndexOffset = 9,
    BaseSize = 10,
    BaseCount = 11,
    CdatMissing = 12,
    CdatSize = 13,
    OidfMissing = 14,
    OidfSize = 15,
    OidlMissing = 16,
    OidlSize = 17,
    TrailerSize = 18,
    BaseMissing = 19,
    FanFalls = 20,
    OidlCount = 21,
    CdatCount = 22,
    // The list, and the question.
    ListSize = 30,
    ListRecord = 31,
    ListSum = 32,
    Position = 40,
    IdWidth = 41,
    // The walk over a commit's parents.
    SecondAlone = 50,
    FirstEdge = 51,
    EdgeMissing = 52,
    EdgeOut = 53,
    EdgeCut = 54,
    ListFull = 55,
    // Verification.
    Bases = 60,
    BaseId = 61,
    Checksum = 62,
    Name = 63,
    IdZero = 64,
    IdOrder = 65,
    IdBucket = 66,
    TreeZero = 67,
    ParentOut = 68,
    Generation = 69,
}

impl Reason {
    // Document 01's number of a reason.
    pub fn number(self) -> u32
        ensures { result ≡ number_of self }
    {
        self as u32
    }
}

#[derive(Clone, Copy, Debug, PartialEq, Eq)]
pub struct Refusal {
    pub reason: Reason,
    pub file: u32,
    pub place: u64,
}

// A refusal where there is one file.
pub fn at(reason: Reason, place: u64) -> Refusal
    ensures { result ≡ refusal reason place }
{
    Refusal {
        reason,
        file: 0,
        place,
    }
}

// A refusal at place 0 of one file: `?` makes it of a reason.
impl From<Reason> for Refusal {
    ghost from_gives = { λ e r. r ≡ refusal e 0 };

    fn from(reason: Reason) -> Refusal {
        at(reason, 0)
    }
}
