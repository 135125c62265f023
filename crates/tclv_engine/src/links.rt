// Second names of variables, and the words that name levels.
ghost use Rattle.std.specs.Prelude.{◌≡◌, ◌<◌, length, drop, true, Err};
ghost use Rattle.std.specs.Char.{is_ascii_digit};
ghost use Rattle.std.specs.List.{prefix_len};
ghost use Rattle.tclv_text.specs.Numbers.{is_digits};
ghost use Rattle.tclv_text.specs.Texts.{IsText};
ghost use Rattle.tclv_value.specs.View.{HasPlace, IsMade, text_at};
ghost use Rattle.tclv_engine.specs.Answers.{Answers, IsCalm, KeepsStack, SameState, returned};
ghost use Rattle.tclv_engine.specs.ListAssignment.{unseen};
ghost use Rattle.tclv_engine.specs.Links as spec;

use crate::endings::End;
use crate::machine::Machine;
use tclv_model::{ErrorCode, MessageId};
use tclv_reply::{is_element, is_qualified};
use tclv_text::whole;
use tclv_value::At;
use tclv_vars::{Root, VarFault};

// ---- words that name levels

// How many digits a text begins with.
fn digits_len(text: &[u8]) -> usize
    ensures { result ≡ prefix_len is_ascii_digit text.now }
{
    text.iter().take_while(|b| b.is_ascii_digit()).count()
}

// Whether a text is digits, one or more.
fn is_digits(text: &[u8]) -> bool
    ensures { result ≡ is_digits text.now }
{
    !text.is_empty() && digits_len(text) == text.len()
}

// The number that digits write, as far as it is one of 63 bits.
fn digits_of(text: &[u8]) -> Option<u64>
    requires { IsText text.now }
    ensures { result ≡ spec.digits_of text.now }
{
    if !is_digits(text) {
        return None;
    }
    match whole(text) {
        Ok(n) if n >= 0 => Some(n as u64),
        _ => None,
    }
}

// The level of a number, up to the current one.
fn up_to(current: usize, n: Option<u64>) -> Option<usize>
    ensures { result ≡ spec.up_to current n }
{
    match n {
        None => None,
        Some(n) => {
            if n > current as u64 {
                None
            } else {
                Some(n as usize)
            }
        }
    }
}

// The level so many levels outwards from the current one.
fn outwards(current: usize, n: Option<u64>) -> Option<usize>
    ensures { result ≡ spec.outwards current n }
{
    match n {
        None => None,
        Some(n) => {
            if n > current as u64 {
                None
            } else {
                Some(current - n as usize)
            }
        }
    }
}

// Whether a word begins with `#`.
fn is_marked(word: &[u8]) -> bool
    ensures { result ≡ spec.is_marked word.now }
{
    matches!(word, [b'#', ..])
}

// What stands behind the mark.
fn behind_mark(word: &[u8]) -> &[u8]
    requires text { IsText word.now }
    requires marked { spec.is_marked word.now ≡ true }
    ensures text { IsText result.now }
    ensures rest { result.now ≡ drop 1 word.now }
{
    &word[1..]
}

// The level that a word names, where this is the current one.
fn level_named(current: usize, word: &[u8]) -> Option<usize>
    requires { IsText word.now }
    ensures { result ≡ spec.level_named current word.now }
{
    if is_marked(word) {
        return up_to(current, digits_of(behind_mark(word)));
    }
    outwards(current, digits_of(word))
}

/// Whether a word has the form of a level: digits, or `#` and digits.
pub fn is_level(word: &[u8]) -> bool
    ensures { result ≡ spec.is_level word.now }
{
    if is_marked(word) {
        return is_digits(&word[1..]);
    }
    is_digits(word)
}

// ---- levels and links

impl<W> Machine<W> {
    /// The level that the text of a place names. Where it names none, that is an error.
    pub fn level_at(&mut self, word: At) -> Result<usize, End>
        requires { HasPlace self.old.values.store word }
        ensures answer { Answers (spec.level (text_at self.old.values.store word)) returned self.old result self.new }
        ensures stack { KeepsStack self.old.values.store.stack result self.new.values.store.stack }
        ensures calm { IsCalm result }
        ensures units { self.new.units ≡ self.old.units }
        ensures own { self.new.own ≡ self.old.own }
    {
        self.values.make_text(word)?;
        match level_named(self.values.level(), self.values.lend(word)) {
            Some(level) => Ok(level),
            None => Err(self.raise_at(MessageId::BadLevel, word, b"", ErrorCode::NoCode)),
        }
    }

    /// Makes the name that is the text of a place of the stack a second name of the variable whose name is
    /// the text of another place, which stands where the root says.
    pub fn link(&mut self, root: Root, other: usize, local: usize) -> Result<(), End>
        requires other { other < length self.old.values.store.stack }
        requires local { local < length self.old.values.store.stack }
        ensures answer { Answers (spec.link root (text_at self.old.values.store (At.Stack other))
            (text_at self.old.values.store (At.Stack local))) unseen self.old result self.new }
        ensures stack { KeepsStack self.old.values.store.stack result self.new.values.store.stack }
        ensures calm { IsCalm result }
        ensures units { self.new.units ≡ self.old.units }
        ensures own { self.new.own ≡ self.old.own }
    {
        self.values.make_text(At::Stack(other))?;
        self.values.make_text(At::Stack(local))?;
        self.link_made(root, At::Stack(other), At::Stack(local))
    }

    /// Makes the name that is the text of a place of the stack a second name of the variable of that name
    /// in the global namespace.
    pub fn link_global(&mut self, name: usize) -> Result<(), End>
        requires { name < length self.old.values.store.stack }
        ensures answer { Answers (spec.link_global (text_at self.old.values.store (At.Stack name))) unseen self.old result self.new }
        ensures stack { KeepsStack self.old.values.store.stack result self.new.values.store.stack }
        ensures calm { IsCalm result }
        ensures units { self.new.units ≡ self.old.units }
        ensures own { self.new.own ≡ self.old.own }
    {
        self.values.make_text(At::Stack(name))?;
        self.link_global_made(At::Stack(name))
    }

    /// The level of the caller of the current frame. Outside of all calls there is none, and that is an
    /// error.
    pub fn outer_level(&mut self) -> Result<usize, End>
        ensures answer { Answers spec.outer_level returned self.old result self.new }
        ensures stack { KeepsStack self.old.values.store.stack result self.new.values.store.stack }
        ensures calm { IsCalm result }
        ensures units { self.new.units ≡ self.old.units }
        ensures own { self.new.own ≡ self.old.own }
    {
        let level = self.values.level();
        if level == 0 {
            return Err(self.raise(MessageId::BadLevel, b"1", b"", ErrorCode::NoCode));
        }
        Ok(level - 1)
    }

    // The same as `link_global`, where the text is made.
    fn link_global_made(&mut self, name: At) -> Result<(), End>
        requires place { HasPlace self.old.values.store name }
        requires made { IsMade self.old.values.store name }
        ensures answer { Answers (spec.link_global (text_at self.old.values.store name)) unseen self.old result self.new }
        ensures stack { KeepsStack self.old.values.store.stack result self.new.values.store.stack }
        ensures calm { IsCalm result }
        ensures units { self.new.units ≡ self.old.units }
        ensures own { self.new.own ≡ self.old.own }
    {
        if is_element(self.values.lend(name)) {
            return Err(self.raise_at(
                MessageId::VariableNameIsElement,
                name,
                b"",
                ErrorCode::NoCode,
            ));
        }
        self.link_plain(Root::Space(0), name, name)
    }

    // The same as `link`, where both texts are made.
    fn link_made(&mut self, root: Root, other: At, local: At) -> Result<(), End>
        requires other { HasPlace self.old.values.store other }
        requires local { HasPlace self.old.values.store local }
        requires other_made { IsMade self.old.values.store other }
        requires local_made { IsMade self.old.values.store local }
        ensures answer { Answers (spec.link root (text_at self.old.values.store other) (text_at self.old.values.store local)) unseen self.old result self.new }
        ensures stack { KeepsStack self.old.values.store.stack result self.new.values.store.stack }
        ensures calm { IsCalm result }
        ensures units { self.new.units ≡ self.old.units }
        ensures own { self.new.own ≡ self.old.own }
    {
        if is_element(self.values.lend(local)) {
            return Err(self.raise_at(
                MessageId::VariableNameIsElement,
                local,
                b"",
                ErrorCode::NoCode,
            ));
        }
        if is_qualified(self.values.lend(local)) {
            return Err(self.raise_at(
                MessageId::VariableNameIsQualified,
                local,
                b"",
                ErrorCode::NoCode,
            ));
        }
        self.link_plain(root, other, local)
    }

    // The same, where the local name has the form of a plain one.
    fn link_plain(&mut self, root: Root, other: At, local: At) -> Result<(), End>
        requires other { HasPlace self.old.values.store other }
        requires local { HasPlace self.old.values.store local }
        requires other_made { IsMade self.old.values.store other }
        requires local_made { IsMade self.old.values.store local }
        ensures answer { Answers (spec.link_plain root (text_at self.old.values.store other)
            (text_at self.old.values.store local)) unseen self.old result self.new }
        ensures stack { KeepsStack self.old.values.store.stack result self.new.values.store.stack }
        ensures calm { IsCalm result }
        ensures units { self.new.units ≡ self.old.units }
        ensures own { self.new.own ≡ self.old.own }
    {
        let shape = self.values.shape_at(other);
        if shape.qualified {
            return Err(self.not_built());
        }
        match self.values.link(local, root, other, shape) {
            Ok(()) => Ok(()),
            Err(fault) => Err(self.refuse_link(fault, other, local)),
        }
    }

    // Raises the error that a local name can't be a link.
    fn refuse_link(&mut self, fault: VarFault, other: At, local: At) -> End
        requires other { HasPlace self.old.values.store other }
        requires local { HasPlace self.old.values.store local }
        ensures refuses { spec.RefusesLinking fault (text_at self.old.values.store other)
            (text_at self.old.values.store local) self.new.values.store.stack result }
        ensures same { SameState self.old self.new }
        ensures stack { KeepsStack {T = Unit {0}} self.old.values.store.stack (Err result) self.new.values.store.stack }
    {
        match fault {
            VarFault::NoMemory => End::Memory,
            VarFault::LinkExists => {
                self.raise_at(MessageId::VariableExists, local, b"", ErrorCode::NoCode)
            }
            _ => self.raise_at(MessageId::CannotSetNonArray, other, b"", ErrorCode::NoCode),
        }
    }
}
