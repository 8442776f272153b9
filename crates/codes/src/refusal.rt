// The refusals, each with its number. Document 01, 'Answers, by who can cause them'; README.md lists all of them.

ghost use Rattle.std.specs.Prelude.{◌≡◌};
ghost use Rattle.codes.specs.Refusals.{number_of, fault_at};

#[derive(Clone, Copy, PartialEq, Eq)]
pub enum Refusal {
    // A lent part is too short.
    TooShort = 1,

    // The level list isn't one level per support variable, strictly ascending, below the store's level count.
    BadLevels = 2,

    // The store breaks its rules.
    BrokenStore = 3,

    // A root is 0 or beyond the store's count, there are over 1,024 roots, or a setting isn't one byte 00 or 01 per level.
    BadRootOrSetting = 4,

    // A name list has neither no entry nor one per variable or root, or an export name is unfit.
    BadName = 5,

    // The variable order isn't a permutation of the levels.
    BadOrder = 6,

    // The input ends before `.nodes`.
    NoNodes = 10,

    // A key that there isn't.
    UnknownKey = 11,

    // A version other than DDDMP-2.0 or DDDMP-3.0.
    BadVersion = 12,

    // An unknown value of `.mode` or `.varinfo`.
    BadMode = 13,

    // A single number has a foreign character or no digit.
    NotANumber = 14,

    // A number is too large for its width.
    TooLarge = 15,

    // A list has a foreign character.
    Foreign = 16,

    // A second minus, a minus after a digit, or one without its digit.
    MisplacedMinus = 17,

    // A name or the `.dd` value isn't UTF-8.
    NotUtf8 = 18,

    // Over a limit.
    OverLimit = 19,

    // `.nsuppvars` is above `.nvars`.
    OverNvars = 20,

    // A list of the header has the wrong number of entries.
    WrongCount = 21,

    // `.ids` isn't strictly ascending, or its last entry isn't below `.nvars`.
    BadIds = 22,

    // A permid isn't below `.nvars`, or stands twice.
    BadPermids = 23,

    // Two lists give a support variable unlike names.
    UnlikeNames = 24,

    // A root is 0.
    ZeroRoot = 25,

    // A root's magnitude is above `.nnodes`.
    RootOverNnodes = 26,

    // The nodes end early.
    EndsEarly = 30,

    // Not the expected node number.
    WrongNode = 31,

    // A missing blank, or not two children.
    BadLine = 32,

    // A terminal is described by other than `T`.
    BadTerminal = 33,

    // A variable is out of range.
    BadVariable = 34,

    // A child is 0, or not below its node.
    BadChild = 35,

    // A level isn't above both children's.
    BadLevel = 36,

    // A 00 is followed by no byte that an escape has.
    BadEscape = 37,

    // A binary number is over 64 bits.
    Over64Bits = 38,

    // The nodes aren't followed by `.end` and white space.
    NoEnd = 39,

    // A line needs a new node, and every slot is used.
    NoRoom = 40,

    // No setting gives the wanted answer.
    NoSetting = 41,

    // No single flip turns the answer over.
    NoFlip = 42,
}

impl Refusal {
    // Its number in document 01.
    pub fn number(self) -> u8
        ensures { result ≡ number_of self }
    {
        self as u8
    }

    // The refusal of a line of the file.
    pub fn at(self, line: usize) -> Fault
        ensures { result ≡ fault_at self line }
    {
        Fault {
            number: self.number(),
            line,
        }
    }
}

// What a load answers on a refusal: its number, and the line of the file that has it, counted from 1, or 0 where no line is at fault.
// Stays a number: `DumpHeader::load` hands on whatever number was found before it.
#[derive(Clone, Copy, PartialEq, Eq)]
pub struct Fault {
    pub number: u8,
    pub line: usize,
}

// A refusal with no line.
impl From<Refusal> for Fault {
    ghost from_gives = { λ r f. f ≡ fault_at r 0 };

    fn from(r: Refusal) -> Fault {
        r.at(0)
    }
}
