//! Where a document begins, and its declaration.
ghost use Rattle.std.specs.Prelude.{◌≡◌, drop};
ghost use Rattle.doc_grammar.specs.Characters.{class};
ghost use Rattle.doc_grammar.specs.Grammar.{strict, fold_case};
ghost use Rattle.doc_grammar.specs.Grammar as g;
ghost use Rattle.doc_grammar.specs.Machine as m;
ghost use Rattle.doc_events.specs.View.{state_in, part_of, quote_of, saying_part, saying_text, setting_name_from, setting_value_from, StepTaken};

use crate::markup::{bad, next_of};
use crate::state::{Part, Place, Quote, Reader, Saying, State, Stop};
use crate::tags::partly;
use doc_grammar::{Class, Why, class_of};
use std::alloc::Global;

static VERSION: [char; 7] = ['v', 'e', 'r', 's', 'i', 'o', 'n'];

static ENCODING: [char; 8] = ['e', 'n', 'c', 'o', 'd', 'i', 'n', 'g'];

static STANDALONE: [char; 10] = ['s', 't', 'a', 'n', 'd', 'a', 'l', 'o', 'n', 'e'];

static ONE_POINT_ZERO: [char; 3] = ['1', '.', '0'];

static UTF_8: [char; 5] = ['u', 't', 'f', '-', '8'];

static YES: [char; 3] = ['y', 'e', 's'];

static NO: [char; 2] = ['n', 'o'];

fn word(part: Part) -> &'static [char]
    ensures { result.now ≡ g.word (part_of part) }
{
    match part {
        Part::Version => &VERSION,
        Part::Encoding => &ENCODING,
        Part::Standalone => &STANDALONE,
    }
}

fn text(saying: Saying) -> &'static [char]
    ensures { result.now ≡ saying_text saying }
{
    match saying {
        Saying::OnePointZero => &ONE_POINT_ZERO,
        Saying::Utf8 => &UTF_8,
        Saying::Yes => &YES,
        Saying::No => &NO,
    }
}

fn part(saying: Saying) -> Part
    ensures { part_of result ≡ saying_part saying }
{
    match saying {
        Saying::OnePointZero => Part::Version,
        Saying::Utf8 => Part::Encoding,
        Saying::Yes | Saying::No => Part::Standalone,
    }
}

fn is_small_xml(name: &[char]) -> bool
    ensures { result ≡ m.is_small_xml name.now }
{
    matches!(name, ['x', 'm', 'l'])
}

fn fold_case(c: char) -> char
    ensures { result ≡ fold_case c }
{
    c.to_ascii_lowercase()
}

fn fold_for(saying: Saying, c: char) -> char
    ensures { result ≡ g.fold_for (saying_part saying) c }
{
    match saying {
        Saying::Utf8 => fold_case(c),
        _ => c,
    }
}

fn quote_char(quote: Quote) -> char
    ensures { result ≡ g.quote_char (quote_of quote) }
{
    match quote {
        Quote::Double => '"',
        Quote::Single => '\'',
    }
}

impl Reader {
    /// Where nothing but a byte order mark was read.
    pub(crate) fn after_byte_order_mark(&mut self, b: char, why: Why) -> Result<State, Stop>
        ensures { StepTaken (m.step_after_byte_order_mark why (class b)) result self.new }
    {
        match class_of(b) {
            Class::Less => Ok(State::DocumentTagOpen),
            Class::Blank => {
                self.place = Place::Before;
                Ok(State::Content)
            }
            _ => Err(Stop::Dead(why)),
        }
    }

    /// After `?` in the declaration.
    pub(crate) fn declaration_end(&mut self, b: char) -> Result<State, Stop>
        ensures { StepTaken (m.step_greater (class b) (m.go (m.content m.before))) result self.new }
    {
        self.place = Place::Before;
        self.greater(State::Content, b)
    }

    /// Where nothing was read.
    pub(crate) fn start(&mut self, alloc: Global, b: char) -> Result<State, Stop>
        ensures { StepTaken (m.step_start (class b) b) result self.new }
    {
        if b == '\u{feff}' {
            Ok(State::AfterByteOrderMark)
        } else {
            let why = partly(alloc, '\u{feff}', b)?;
            self.after_byte_order_mark(b, why)
        }
    }

    /// After `<` at the start of a document.
    pub(crate) fn document_tag_open(&mut self, b: char) -> Result<State, Stop>
        ensures { StepTaken (m.step_document_tag_open strict (class b) b) result self.new }
    {
        match class_of(b) {
            Class::Question => Ok(State::DocumentProcessingInstruction),
            _ => {
                self.place = Place::Before;
                self.tag_open(b)
            }
        }
    }

    /// After `<?` at the start of a document.
    pub(crate) fn document_processing_instruction(&mut self, b: char) -> Result<State, Stop>
        ensures { StepTaken (m.step_document_processing_instruction (class b) b) result self.new }
    {
        match class_of(b) {
            Class::Letter => {
                self.name.clear();
                self.name.push(b)?;
                Ok(State::DocumentInstructionTarget)
            }
            Class::Bad => Err(Stop::Dead(bad(b))),
            _ => Err(Stop::Dead(Why::Plain)),
        }
    }

    /// In the target of a processing instruction, or `xml`, at the start of a document.
    pub(crate) fn document_instruction_target(&mut self, b: char) -> Result<State, Stop>
        ensures { StepTaken (m.step_document_instruction_target self.old.name.items (class b) b)
            result
            self.new }
    {
        self.place = Place::Before;
        match class_of(b) {
            Class::Letter | Class::Digit | Class::Dash => {
                self.name.push(b)?;
                Ok(State::DocumentInstructionTarget)
            }
            Class::Blank => {
                if is_small_xml(self.name.as_slice()) {
                    Ok(State::BeforeVersion)
                } else {
                    self.unless_xml(State::InstructionText)
                }
            }
            Class::Question => self.unless_xml(State::InstructionTargetEnd),
            Class::Bad => Err(Stop::Dead(bad(b))),
            _ => Err(Stop::Dead(Why::Plain)),
        }
    }

    /// After `<?xml`.
    pub(crate) fn before_version(&self, b: char) -> Result<State, Stop>
        ensures { StepTaken (m.step_before_version (class b) b) result self.now }
    {
        match class_of(b) {
            Class::Blank => Ok(State::BeforeVersion),
            _ => self.exactly('v', b, State::SettingName(Part::Version, 1)),
        }
    }

    /// After a part of the declaration.
    pub(crate) fn after_setting(&self, part: Part, b: char) -> Result<State, Stop>
        ensures { StepTaken (m.step_after_setting (part_of part) (class b)) result self.now }
    {
        match class_of(b) {
            Class::Blank => Ok(State::BetweenSettings(part)),
            Class::Question => Ok(State::DeclarationEnd),
            _ => Err(Stop::Dead(Why::Plain)),
        }
    }

    /// After white space after a part of the declaration.
    pub(crate) fn between_settings(&self, part: Part, b: char) -> Result<State, Stop>
        ensures { StepTaken (m.step_between_settings (part_of part) (class b) b) result self.now }
    {
        match class_of(b) {
            Class::Blank => Ok(State::BetweenSettings(part)),
            Class::Question => Ok(State::DeclarationEnd),
            _ => self.next_part(part, b),
        }
    }

    fn next_part(&self, part: Part, b: char) -> Result<State, Stop>
        ensures { StepTaken (m.step_part (part_of part) b) result self.now }
    {
        match part {
            Part::Version => {
                if b == 'e' {
                    Ok(State::SettingName(Part::Encoding, 1))
                } else {
                    self.exactly('s', b, State::SettingName(Part::Standalone, 1))
                }
            }
            Part::Encoding => self.exactly('s', b, State::SettingName(Part::Standalone, 1)),
            Part::Standalone => Err(Stop::Dead(Why::Plain)),
        }
    }

    /// In the word of a part, of which `done` characters were read.
    pub(crate) fn setting_name(&self, part: Part, done: usize, b: char) -> Result<State, Stop>
        ensures { StepTaken (m.step strict (setting_name_from (part_of part)
            (drop done (g.word (part_of part)))) (class b) b) result self.now }
    {
        match next_of(word(part), done) {
            None => self.after_setting_name(part, b),
            Some(expected) => {
                self.exactly(
                    expected,
                    b,
                    State::SettingName(part, done.saturating_add(1)),
                )
            }
        }
    }

    /// After the word of a part.
    pub(crate) fn after_setting_name(&self, part: Part, b: char) -> Result<State, Stop>
        ensures { StepTaken (m.step_after_setting_name (part_of part) (class b)) result self.now }
    {
        match class_of(b) {
            Class::Blank => Ok(State::AfterSettingName(part)),
            Class::Equal => Ok(State::BeforeSettingValue(part)),
            _ => Err(Stop::Dead(Why::Plain)),
        }
    }

    fn setting_value_start(&self, part: Part, quote: Quote) -> State
        ensures { state_in result self.now ≡ m.setting_value_start (part_of part) (quote_of quote) }
    {
        match part {
            Part::Version => State::SettingValue(Saying::OnePointZero, quote, 0),
            Part::Encoding => State::SettingValue(Saying::Utf8, quote, 0),
            Part::Standalone => State::StandaloneValue(quote),
        }
    }

    /// After the `=` of a part.
    pub(crate) fn before_setting_value(&self, part: Part, b: char) -> Result<State, Stop>
        ensures { StepTaken (m.step_before_setting_value (part_of part) (class b)) result self.now }
    {
        match class_of(b) {
            Class::Blank => Ok(State::BeforeSettingValue(part)),
            Class::DoubleQuote => Ok(self.setting_value_start(part, Quote::Double)),
            Class::SingleQuote => Ok(self.setting_value_start(part, Quote::Single)),
            _ => Err(Stop::Dead(Why::Plain)),
        }
    }

    /// Before `yes` or `no`.
    pub(crate) fn standalone_value(&self, quote: Quote, b: char) -> Result<State, Stop>
        ensures { StepTaken (m.step_standalone_value (quote_of quote) b) result self.now }
    {
        if b == 'y' {
            Ok(State::SettingValue(Saying::Yes, quote, 1))
        } else {
            self.exactly('n', b, State::SettingValue(Saying::No, quote, 1))
        }
    }

    /// In what a part says, of which `done` characters were read.
    #[tactic(auto, using(crate::proofs::Steps::setting_value_step))]
    pub(crate) fn setting_value(
        &self,
        saying: Saying,
        quote: Quote,
        done: usize,
        b: char,
    ) -> Result<State, Stop>
        ensures { StepTaken (m.step strict (setting_value_from (saying_part saying) (quote_of quote)
            (drop done (saying_text saying))) (class b) b) result self.now }
    {
        match next_of(text(saying), done) {
            None => self.exactly(quote_char(quote), b, State::AfterSetting(part(saying))),
            Some(expected) => self.exactly(
                fold_for(saying, expected),
                fold_for(saying, b),
                State::SettingValue(saying, quote, done.saturating_add(1)),
            ),
        }
    }
}
