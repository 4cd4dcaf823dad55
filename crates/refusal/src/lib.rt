// The refusals of the calls, by name. C gets each as its number in the table of refusals; 0 means done.
#![tactic(auto)]

ghost use Rattle.std.specs.Prelude.{◌≡◌};
ghost use Rattle.refusal.specs.Refusals.{number_of, answer_of};

// Why a call did nothing.
#[derive(Clone, Copy, Debug, PartialEq, Eq)]
pub enum Refusal {
    // A rule's number is above 65,534.
    NumberTooHigh = 1,
    // A range is no range of its field, or asks for ports of packets without them.
    WrongRange = 2,
    // A rule of this number stands already.
    NumberTaken = 3,
    // No rule stands under this number, or at this place.
    NotThere = 4,
    // The store holds as many rules as it takes.
    TableFull = 5,
    // The tree of the new table has more locations than the store has cells.
    TooFewCells = 6,
    // The bytes are no packet that can be read.
    Unreadable = 7,
    // What is lent is too short, or the number of cells is outside its limits.
    NoRoom = 8,
    // The words are no store, or no image.
    Damaged = 9,
    // The prefix names no range.
    NoPrefix = 10,
    // A value is above the top of its field.
    ValueTooHigh = 11,
    // The capture is not accepted, or the record is too long for one.
    NoCapture = 12,
    // The tally record has no place for the rule.
    TallyFull = 13,
    // The packet is sound as far as the capture has it.
    Cut = 14,
    // The list has no edit, or more than 32.
    ListLength = 15,
}

impl Refusal {
    // Its number in the table of refusals.
    pub fn number(self) -> u32
        ensures { result ≡ number_of self }
    {
        self as u32
    }
}

// What C is answered: 0 where all was done, else the refusal's number.
pub fn answer<T: Drop>(done: Result<T, Refusal>) -> u32
    ensures { result ≡ answer_of done }
{
    match done {
        Ok(_) => 0,
        Err(refusal) => refusal.number(),
    }
}
