//! Reads the words of the command line in front of the calls, one by one: options, and behind them
//! the file. `board` and `image write` read their words by it. specs/Options.antt defines it.
ghost use Rattle.std.specs.Prelude.{◌≡◌, ◌++◌, map, vec_items, OnOk};
ghost use Rattle.abt_board_text.specs.Options.{no_options, rule_of, is_option, kind_of, with_kind, with_rule, with_option, goes_on, opens_file, line_from, ReadsAs};
ghost use Rattle.model_base.specs.Decimal.{newline};
ghost use Rattle.abt_board_text.specs.Text.{rule_refused, not_understood, unfiled_text, unopened_text};

use crate::calls::read_byte;
use crate::put_number_line;
use abt_record::is_rule;
use std::alloc::AllocError;
use support_cli::first_word;
use support_rejection::Rejection;

/// How far the words are read.
#[derive(Clone, Copy)]
pub enum Stage {
    /// All words so far are options that are understood.
    Words,
    /// The last word was `--rule`; its number comes next.
    Awaits,
    /// The last word was no option: it names the file.
    File,
    /// The last word is not understood.
    Wrong,
}

/// What the words so far come to.
#[derive(Clone, Copy)]
pub struct Options {
    /// Whether the program draws (`board`) or writes an image (`image write`).
    pub draws: bool,
    /// The rule, where `--rule` gave one: any number from 0 to 255.
    pub rule: Option<u8>,
    /// Whether the file is an image: `--image`, which only a program that draws takes.
    pub image: bool,
    /// Whether to write the second form: `--small`, which only a program that does not draw takes.
    pub small: bool,
    /// How far the words are read.
    pub stage: Stage,
}

/// What a word is, where no number is awaited.
#[derive(Clone, Copy)]
pub enum Kind {
    /// `--rule`.
    Rule,
    /// `--image`.
    Image,
    /// `--small`.
    Small,
    /// Any other word that begins with two dashes.
    Unknown,
    /// Any word that does not: the file's name.
    File,
}

/// Returns the options before any word is read. `draws` is true for `board` and false for
/// `image write`. Equals `no_options` of specs/Options.antt.
#[tactic(auto, unfolding(crate::specs::Options::no_options))]
pub fn no_options(draws: bool) -> Options
    ensures { result ≡ no_options draws }
{
    Options {
        draws,
        rule: None,
        image: false,
        small: false,
        stage: Stage::Words,
    }
}

/// Returns the rule by which a sheet is started: 1 where no option gives another. It may be any
/// number from 0 to 255.
pub fn rule_of(o: Options) -> u8
    ensures { result ≡ rule_of o }
{
    o.rule.unwrap_or(1)
}

// ---- one word more

/// Whether a word is an option: it begins with two dashes. A file with such a name is given as
/// `./--name`.
#[tactic(auto, using(crate::proofs::Spelling::dashes))]
pub fn is_option(word: &[u8]) -> bool
    ensures { result ≡ is_option word.now }
{
    word.starts_with(b"--")
}

// By `==`: a `match` on the letters would leave a goal to prove at each byte.
#[tactic(auto, using(crate::proofs::Spelling::letters), unfolding(crate::specs::Options::kind_of, crate::specs::Options::rule_option, crate::specs::Options::image_option, crate::specs::Options::small_option))]
fn kind_of(word: &[u8]) -> Kind
    ensures { result ≡ kind_of word.now }
{
    if word == b"--rule".as_slice() {
        Kind::Rule
    } else if word == b"--image".as_slice() {
        Kind::Image
    } else if word == b"--small".as_slice() {
        Kind::Small
    } else if is_option(word) {
        Kind::Unknown
    } else {
        Kind::File
    }
}

// The second of `--rule` and `--image` is not understood: an image holds its rule. Nor is a second
// `--small`.
#[tactic(auto, unfolding(crate::specs::Options::with_kind))]
fn with_kind(o: Options, kind: Kind) -> Options
    ensures { result ≡ with_kind o kind }
{
    let taken = o.rule.is_some() || o.image;
    let (image, small, stage) = match kind {
        Kind::Rule if !taken => (o.image, o.small, Stage::Awaits),
        Kind::Image if !taken && o.draws => (true, o.small, Stage::Words),
        Kind::Small if !o.small && !o.draws => (o.image, true, Stage::Words),
        Kind::File => (o.image, o.small, Stage::File),
        _ => (o.image, o.small, Stage::Wrong),
    };
    Options {
        image,
        small,
        stage,
        ..o
    }
}

// The word behind `--rule`.
#[tactic(auto, unfolding(crate::specs::Options::with_rule))]
fn with_rule(o: Options, rule: Option<u8>) -> Options
    ensures { result ≡ with_rule o rule }
{
    match rule {
        Some(_) => Options {
            rule,
            stage: Stage::Words,
            ..o
        },
        None => Options {
            stage: Stage::Wrong,
            ..o
        },
    }
}

/// Returns the options with one word more. Behind the file, or a word that is not understood, a
/// word changes nothing. Equals `with_option` of specs/Options.antt.
#[tactic(auto, unfolding(crate::specs::Options::with_option, crate::specs::Options::option_at))]
pub fn option(o: Options, word: &[u8]) -> Options
    ensures { result ≡ with_option o word.now }
{
    match o.stage {
        Stage::Words => with_kind(o, kind_of(word)),
        Stage::Awaits => with_rule(o, read_byte(word)),
        Stage::File | Stage::Wrong => o,
    }
}

// ---- all the words

/// What the words of a command line come to.
#[derive(Clone, Copy)]
pub struct Read<'a> {
    /// The options.
    pub options: Options,
    /// The word that ended the options: the file, or a word that is not understood. Empty where
    /// none did.
    pub word: &'a [u8],
    /// The words behind it: the calls, where it is the file.
    pub calls: &'a [Vec<u8>],
}

/// Reads words behind these options: up to the file, to a word that is not understood, or to the
/// end. Equals `line_from` of specs/Options.antt.
pub fn read_options<'a>(options: Options, words: &'a [Vec<u8>]) -> Read<'a>
    ensures { ReadsAs (line_from options (map vec_items words.now)) result }
{
    let mut o = options;
    let mut rest = words;
    while let Some((word, others)) = first_word(rest) {
        o = option(o, word);
        if !goes_on(o) {
            return Read {
                options: o,
                word,
                calls: others,
            };
        }
        rest = others;
    }
    Read {
        options: o,
        word: b"",
        calls: rest,
    }
}

// ---- what they come to

/// Whether an option may follow, or the number of one.
#[tactic(auto, unfolding(crate::specs::Options::goes_on))]
pub fn goes_on(o: Options) -> bool
    ensures { result ≡ goes_on o.stage }
{
    matches!(o.stage, Stage::Words | Stage::Awaits)
}

/// Whether the file is opened: every option is understood, a file is named, and the rule is 1 or 2.
/// Equals `opens_file` of specs/Options.antt.
#[tactic(auto, unfolding(crate::specs::Options::opens_file, crate::specs::Options::is_file))]
pub fn opens(o: Options) -> bool
    ensures { result ≡ opens_file o }
{
    matches!(o.stage, Stage::File) && is_rule(rule_of(o))
}

// What is said of a word, in a line.
#[tactic(auto, unfolding(model_base::specs::Decimal::newline))]
fn put_said(out: &mut Vec<u8>, what: &[u8], said: &[u8], word: &[u8]) -> Result<(), AllocError>
    ensures { OnOk result (out.new.items ≡ out.old.items ++ (what.now ++ (said.now ++ (word.now ++ newline)))) }
{
    out.extend_from_slice(what)?;
    out.extend_from_slice(said)?;
    out.extend_from_slice(word)?;
    out.extend_from_slice(b"\n")
}

/// Appends the line `WHAT not understood: WORD` to `out`. `AllocError` where memory runs out.
/// Equals `not_understood` of specs/Text.antt.
#[tactic(auto, unfolding(crate::specs::Text::not_understood))]
pub fn put_not_understood(out: &mut Vec<u8>, what: &[u8], word: &[u8]) -> Result<(), AllocError>
    ensures { OnOk result (out.new.items ≡ out.old.items ++ not_understood what.now word.now) }
{
    put_said(out, what, b" not understood: ", word)
}

/// Appends the line `rule refused 11` to `out`. `AllocError` where memory runs out. Equals
/// `rule_refused` of specs/Text.antt.
pub(crate) fn put_bad_rule(out: &mut Vec<u8>) -> Result<(), AllocError>
    ensures { OnOk result (out.new.items ≡ out.old.items ++ rule_refused) }
{
    put_number_line(
        out,
        b"rule refused ",
        u64::from(Rejection::BadRule.number()),
    )
}

// Where no file is opened though all options are understood. A rule that the start rejects is said
// before a missing file.
#[tactic(auto, unfolding(crate::specs::Text::unfiled_text, crate::specs::Text::no_file, model_base::specs::Decimal::newline))]
fn put_unfiled(out: &mut Vec<u8>, o: Options) -> Result<(), AllocError>
    ensures { OnOk result (out.new.items ≡ out.old.items ++ unfiled_text o) }
{
    if is_rule(rule_of(o)) {
        out.extend_from_slice(
            b"no file given: board [--rule N] SHEET [CALL ..], or board --image IMAGE [CALL ..]\n",
        )
    } else {
        put_bad_rule(out)
    }
}

/// Appends the one line that is said where no file is opened: an option that is not understood, a
/// rule that the start rejects, or a missing file. `word` is the word read last. `AllocError` where
/// memory runs out. Equals `unopened_text` of specs/Text.antt.
#[tactic(auto, unfolding(crate::specs::Text::unopened_text, crate::specs::Text::unopened_at))]
pub fn put_unopened(out: &mut Vec<u8>, o: Options, word: &[u8]) -> Result<(), AllocError>
    ensures { OnOk result (out.new.items ≡ out.old.items ++ unopened_text o word.now) }
{
    match o.stage {
        Stage::Words | Stage::File => put_unfiled(out, o),
        Stage::Awaits => put_not_understood(out, b"option", b"--rule"),
        Stage::Wrong => put_not_understood(out, b"option", word),
    }
}
