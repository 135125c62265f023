// Names of variables and commands, looked at by their UTF-8 bytes.
ghost use Rattle.std.specs.Prelude.{◌≡◌, ◌≤◌, length, take, drop, IfSome};
ghost use Rattle.std.specs.Option.{option_copied};
ghost use Rattle.tclv_text.specs.Texts.{IsText};
ghost use Rattle.tclv_reply.specs.Names as spec;

/// How a name of a variable is read: the place of the first `(`, where the name is that of an element of an
/// array, and whether the variable or the array is qualified.
#[derive(Clone, Copy, Debug, PartialEq, Eq)]
pub struct NameShape {
    pub place: Option<usize>,
    pub qualified: bool,
}

// How many bytes stand before the first `(`.
fn before_open(name: &[u8]) -> usize
    ensures len { result ≡ spec.before_open name.now }
    ensures within { result ≤ length name.now }
{
    name.iter().take_while(|b| **b != b'(').count()
}

// Whether a `)` comes last.
fn ends_in_close(name: &[u8]) -> bool
    ensures { result ≡ spec.ends_in_close name.now }
{
    matches!(name, [.., b')'])
}

/// The place of the first `(` in a name that is that of an element of an array: it ends in `)` and has
/// a `(`.
pub fn open_of(name: &[u8]) -> Option<usize>
    ensures { result ≡ spec.open_of name.now }
{
    let place = before_open(name);
    if ends_in_close(name) && place < name.len() {
        Some(place)
    } else {
        None
    }
}

/// Whether a name is that of an element of an array.
pub fn is_element(name: &[u8]) -> bool
    ensures { result ≡ spec.is_element name.now }
{
    open_of(name).is_some()
}

/// Whether a name holds `::`.
pub fn is_qualified(name: &[u8]) -> bool
    ensures { result ≡ spec.is_qualified name.now }
{
    for i in 0..name.len() {
        if name[i..].starts_with(b"::") {
            return true;
        }
    }
    false
}

// The bytes before a place of a name.
fn array_before(name: &[u8], place: usize) -> &[u8]
    requires text { IsText name.now }
    requires stands { spec.IsOpen name.now place }
    ensures text { IsText result.now }
    ensures array { result.now ≡ take place name.now }
{
    &name[..place]
}

// The bytes from a place on, or none where the place is behind the end.
fn behind(bytes: &[u8], at: usize) -> &[u8]
    ensures { result.now ≡ drop at bytes.now }
{
    if at < bytes.len() { &bytes[at..] } else { b"" }
}

// The index behind a place of a name, without the last byte.
fn index_behind(name: &[u8], place: usize) -> &[u8]
    requires text { IsText name.now }
    requires stands { spec.IsOpen name.now place }
    ensures text { IsText result.now }
    ensures index { result.now ≡ spec.index_behind place name.now }
{
    behind(&name[..name.len() - 1], place + 1)
}

impl NameShape {
    /// Reads a name.
    pub fn of(name: &[u8]) -> NameShape
        requires { IsText name.now }
        ensures { result ≡ spec.shape_of name.now }
    {
        match open_of(name) {
            Some(place) => NameShape {
                place: Some(place),
                qualified: is_qualified(array_before(name, place)),
            },
            None => NameShape {
                place: None,
                qualified: is_qualified(name),
            },
        }
    }

    /// The name of the variable or of the array that stands in the name that was read.
    pub fn name<'a>(self, whole: &'a [u8]) -> &'a [u8]
        requires text { IsText whole.now }
        requires read { self ≡ spec.shape_of whole.now }
        ensures text { IsText result.now }
        ensures name { result.now ≡ (spec.naming whole.now).name }
    {
        match self.place {
            Some(place) => array_before(whole, place),
            None => whole,
        }
    }

    /// The index that stands in the name that was read, where it is that of an element.
    pub fn index<'a>(self, whole: &'a [u8]) -> Option<&'a [u8]>
        requires text { IsText whole.now }
        requires read { self ≡ spec.shape_of whole.now }
        ensures text { IfSome (option_copied result) IsText }
        ensures index { option_copied result ≡ (spec.naming whole.now).index }
    {
        match self.place {
            Some(place) => Some(index_behind(whole, place)),
            None => None,
        }
    }
}
