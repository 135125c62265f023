// What the counters of a heap count.
ghost use Rattle.std.specs.Prelude.{◌≡◌, [], length, cond, unwrap_or};
ghost use Rattle.std.specs.Str.{chars};
ghost use Rattle.tclv_text.specs.Texts.{IsText};

use crate::table::Types;
use tclv_text::{Text, as_str};

/// How many code points a text has, given as UTF-8.
pub(crate) fn point_count(text: &[u8]) -> u64
    requires { IsText text.now }
    ensures { result ≡ length (chars text.now) }
{
    as_str(text).chars().count() as u64
}

/// How many code points of an object's text are read as a form is set on it: all of them, or none where
/// the form doesn't count.
pub(crate) fn points_read<T: Types>(types: &T, text: &Option<Text>, form: &T::Form) -> u64
    ensures { result ≡ cond (T.table.counts form.now) (length (unwrap_or text.now [])) 0 }
{
    if !types.counts(form) {
        return 0;
    }
    match text {
        Some(text) => point_count(text.bytes()),
        None => 0,
    }
}
