//! What a line asks for, by the first letters of its word and how many numbers it has.
ghost use Rattle.std.specs.Prelude.{◌≡◌};
ghost use Rattle.gate_script.specs.Kinds.{first_in, kind_by, least_numbers, most_numbers, kind_of};

/// What a line asks for.
#[derive(Clone, Copy, Debug, PartialEq, Eq)]
pub enum Kind {
    /// `case`: a new case.
    Case,
    /// `start`: the sheet is started, under rule 1 or the rule given.
    Start,
    /// `refused`: the sheet is rejected with this number, under rule 1 or the rule given.
    Refused,
    /// `same`: the network is the one kept beside.
    Same,
    /// `differs`: it is another.
    Differs,
    /// `run`: a run, and its full rounds.
    Run,
    /// `taken`: the agents' values.
    Taken,
    /// `last`: the last values that the agents took.
    Last,
    /// `deliver`: a delivery, and the number that it is rejected with, if it is.
    Deliver,
    /// `line`: a channel, and how many messages wait on it.
    Line,
    /// `slots`: a sheet of these domains.
    Slots,
    /// `ban`: one record more.
    Ban,
    /// `each`: a record for each of some values.
    Each,
    /// `hex`: more bytes.
    Hex,
    /// `zeros`: more bytes, all zero.
    Zeros,
    /// `dock`: what `dock` prints of the sheet.
    Dock,
    /// `board`: what `board` prints of the sheet.
    Board,
    /// `word`: a word of `board`'s command line behind the sheet.
    Word,
    /// `option`: a word of `board`'s command line up to the file.
    OptionWord,
    /// `end`: no more words.
    End,
    /// `add`: the sheet goes onto the stream, behind its length.
    Add,
    /// `all`: all the little sheets go onto the stream.
    All,
    /// `raw`: the sheet's bytes go onto the stream as they are.
    Raw,
    /// `season`: what `season` prints of the stream.
    Season,
    /// `keep`: the network is kept beside.
    Keep,
    /// A line without a word.
    Empty,
}

// The letters that words begin with, and what their lines ask for. The first entry that fits
// counts.
const WORDS: [(&'static [u8], Kind); 25] = [
    (b"ad", Kind::Add),
    (b"a", Kind::All),
    (b"c", Kind::Case),
    (b"sl", Kind::Slots),
    (b"st", Kind::Start),
    (b"sa", Kind::Same),
    (b"se", Kind::Season),
    (b"bo", Kind::Board),
    (b"b", Kind::Ban),
    (b"en", Kind::End),
    (b"e", Kind::Each),
    (b"h", Kind::Hex),
    (b"z", Kind::Zeros),
    (b"ru", Kind::Run),
    (b"ra", Kind::Raw),
    (b"r", Kind::Refused),
    (b"k", Kind::Keep),
    (b"t", Kind::Taken),
    (b"do", Kind::Dock),
    (b"di", Kind::Differs),
    (b"d", Kind::Deliver),
    (b"la", Kind::Last),
    (b"l", Kind::Line),
    (b"w", Kind::Word),
    (b"o", Kind::OptionWord),
];

// What the first entry says whose letters the line begins with.
#[tactic(auto, unfolding(crate::specs::Kinds::first_in))]
fn first_in(entries: &[(&[u8], Kind)], line: &[u8]) -> Option<Kind>
    ensures { result ≡ first_in entries.now line.now }
{
    entries
        .iter()
        .find(|entry| line.starts_with(entry.0))
        .map(|entry| entry.1)
}

// The kind of a line by its word.
fn kind_by(line: &[u8]) -> Option<Kind>
    ensures { result ≡ kind_by line.now }
{
    first_in(&WORDS, line)
}

impl Kind {
    // So many numbers a line of this kind has at least.
    fn least_numbers(self) -> usize
        ensures { result ≡ least_numbers self }
    {
        match self {
            Kind::Refused | Kind::Run | Kind::Zeros | Kind::Dock => 1,
            Kind::Deliver => 2,
            Kind::Line => 3,
            Kind::Ban => 4,
            Kind::Each => 5,
            _ => 0,
        }
    }

    // And so many at most.
    fn most_numbers(self) -> usize
        ensures { result ≡ most_numbers self }
    {
        match self {
            Kind::Start | Kind::Zeros | Kind::Dock | Kind::Board => 1,
            Kind::Refused | Kind::Run => 2,
            Kind::Deliver => 3,
            Kind::Line | Kind::Ban => 4,
            Kind::Each => 5,
            Kind::Taken | Kind::Last | Kind::Slots => 12,
            _ => 16,
        }
    }
}

/// The kind of a line that has so many numbers: `Empty` where it is shorter than two bytes, None
/// where it is not understood. Equals `kind_of` of specs/Kinds.antt.
#[tactic(auto, unfolding(crate::specs::Kinds::kind_of, crate::specs::Kinds::fitting))]
pub fn kind_of(line: &[u8], numbers: usize) -> Option<Kind>
    ensures { result ≡ kind_of line.now numbers }
{
    if line.len() < 2 {
        return Some(Kind::Empty);
    }
    let kind = kind_by(line)?;
    if kind.least_numbers() <= numbers && numbers <= kind.most_numbers() {
        Some(kind)
    } else {
        None
    }
}
