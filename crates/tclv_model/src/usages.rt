// The usages of commands: what the message of a wrong number of words says.
ghost use Rattle.std.specs.Prelude.{◌≡◌, IsTrue};
ghost use Rattle.std.specs.List.{list_all};
ghost use Rattle.std.specs.Char.{is_ascii};
ghost use Rattle.std.specs.Str.{chars};
ghost use Rattle.tclv_text.specs.Texts.{IsText};
ghost use Rattle.tclv_model.specs.Usages.{usage_of};

/// A command whose words can be of a wrong number. (`concat`, `list` and `return` take any, and `if`
/// has messages of its own.)
#[derive(Clone, Copy, Debug, PartialEq, Eq)]
pub enum Usage {
    /// `append varName ?value ...?`
    Append,
    /// `array subcommand ?arg ...?`
    Array,
    /// `array exists arrayName`
    ArrayExists,
    /// `array get arrayName ?pattern?`
    ArrayGet,
    /// `array names arrayName ?pattern?`
    ArrayNames,
    /// `array set arrayName list`
    ArraySet,
    /// `array size arrayName`
    ArraySize,
    /// `array unset arrayName ?pattern?`
    ArrayUnset,
    /// `binary subcommand ?arg ...?`
    Binary,
    /// `binary format formatString ?arg ...?`
    BinaryFormat,
    /// `binary scan string formatString ?varName ...?`
    BinaryScan,
    /// `break`
    Break,
    /// `catch script ?resultVarName? ?optionsVarName?`
    Catch,
    /// `continue`
    Continue,
    /// `dict subcommand ?arg ...?`
    Dict,
    /// `dict append varName key ?value ...?`
    DictAppend,
    /// `dict create ?key value ...?`
    DictCreate,
    /// `dict exists dictionary key ?key ...?`
    DictExists,
    /// `dict for {keyVarName valueVarName} dictionary script`
    DictFor,
    /// `dict get dictionary ?key ...?`
    DictGet,
    /// `dict getdef dictionary ?key ...? key default`
    DictGetdef,
    /// `dict incr varName key ?increment?`
    DictIncr,
    /// `dict keys dictionary ?globPattern?`
    DictKeys,
    /// `dict lappend varName key ?value ...?`
    DictLappend,
    /// `dict map {keyVarName valueVarName} dictionary script`
    DictMap,
    /// `dict remove dictionary ?key ...?`
    DictRemove,
    /// `dict replace dictionary ?key value ...?`
    DictReplace,
    /// `dict set varName key ?key ...? value`
    DictSet,
    /// `dict size dictionary`
    DictSize,
    /// `dict unset varName key ?key ...?`
    DictUnset,
    /// `dict values dictionary ?globPattern?`
    DictValues,
    /// `error message ?errorInfo? ?errorCode?`
    Error,
    /// `eval arg ?arg ...?`
    Eval,
    /// `exit ?returnCode?`
    Exit,
    /// `expr arg ?arg ...?`
    Expr,
    /// `for start test next command`
    For,
    /// `foreach varList list ?varList list ...? command`
    Foreach,
    /// `format formatString ?arg ...?`
    Format,
    /// `incr varName ?increment?`
    Incr,
    /// `info subcommand ?arg ...?`
    Info,
    /// `info args procName`
    InfoArgs,
    /// `info body procName`
    InfoBody,
    /// `info complete command`
    InfoComplete,
    /// `info default procName arg varName`
    InfoDefault,
    /// `info exists varName`
    InfoExists,
    /// `info level`
    InfoLevel,
    /// `join list ?joinString?`
    Join,
    /// `lappend varName ?value ...?`
    Lappend,
    /// `lassign list ?varName ...?`
    Lassign,
    /// `lindex list ?index ...?`
    Lindex,
    /// `linsert list index ?element ...?`
    Linsert,
    /// `llength list`
    Llength,
    /// `lmap varList list ?varList list ...? command`
    Lmap,
    /// `lpop varName ?index?`
    Lpop,
    /// `lrange list first last`
    Lrange,
    /// `lremove list ?index ...?`
    Lremove,
    /// `lrepeat count ?value ...?`
    Lrepeat,
    /// `lreplace list first last ?element ...?`
    Lreplace,
    /// `lreverse list`
    Lreverse,
    /// `lsearch ?option ...? list pattern`
    Lsearch,
    /// `lseq n ??op? n ??by? n??`
    Lseq,
    /// `lset varName ?index ...? newValue`
    Lset,
    /// `lsort ?option ...? list`
    Lsort,
    /// `proc name args body`
    Proc,
    /// `puts ?-nonewline? ?channelId? string`
    Puts,
    /// `scan string format ?varName ...?`
    Scan,
    /// `set varName ?newValue?`
    Set,
    /// `split string ?splitChars?`
    Split,
    /// `string subcommand ?arg ...?`
    String,
    /// `string compare ?-nocase? ?-length int? string1 string2`
    StringCompare,
    /// `string equal ?-nocase? ?-length int? string1 string2`
    StringEqual,
    /// `string first needle haystack ?startIndex?`
    StringFirst,
    /// `string index string charIndex`
    StringIndex,
    /// `string insert string index insertString`
    StringInsert,
    /// `string is class ?-strict? string`
    StringIs,
    /// `string last needle haystack ?lastIndex?`
    StringLast,
    /// `string length string`
    StringLength,
    /// `string map ?-nocase? mapping string`
    StringMap,
    /// `string match ?-nocase? pattern string`
    StringMatch,
    /// `string range string first last`
    StringRange,
    /// `string repeat string count`
    StringRepeat,
    /// `string replace string first last ?string?`
    StringReplace,
    /// `string reverse string`
    StringReverse,
    /// `string tolower string`
    StringTolower,
    /// `string toupper string`
    StringToupper,
    /// `string trim string ?chars?`
    StringTrim,
    /// `string trimleft string ?chars?`
    StringTrimleft,
    /// `string trimright string ?chars?`
    StringTrimright,
    /// `switch ?option ...? string ?pattern body ...? ?default body?`
    Switch,
    /// `throw type message`
    Throw,
    /// `try body ?handler ...? ?finally script?`
    Try,
    /// `uplevel ?level? command ?arg ...?`
    Uplevel,
    /// `upvar ?level? otherVar localVar ?otherVar localVar ...?`
    Upvar,
    /// `while test command`
    While,
}

fn usage_line(usage: Usage) -> &'static str
    ensures text { result.now ≡ usage_of usage }
    ensures ascii { IsTrue (list_all is_ascii result.now) }
{
    match usage {
        Usage::Append => " varName ?value ...?",
        Usage::Array => " subcommand ?arg ...?",
        Usage::ArrayExists => " exists arrayName",
        Usage::ArrayGet => " get arrayName ?pattern?",
        Usage::ArrayNames => " names arrayName ?pattern?",
        Usage::ArraySet => " set arrayName list",
        Usage::ArraySize => " size arrayName",
        Usage::ArrayUnset => " unset arrayName ?pattern?",
        Usage::Binary => " subcommand ?arg ...?",
        Usage::BinaryFormat => " format formatString ?arg ...?",
        Usage::BinaryScan => " scan string formatString ?varName ...?",
        Usage::Break => "",
        Usage::Catch => " script ?resultVarName? ?optionsVarName?",
        Usage::Continue => "",
        Usage::Dict => " subcommand ?arg ...?",
        Usage::DictAppend => " append varName key ?value ...?",
        Usage::DictCreate => " create ?key value ...?",
        Usage::DictExists => " exists dictionary key ?key ...?",
        Usage::DictFor => " for {keyVarName valueVarName} dictionary script",
        Usage::DictGet => " get dictionary ?key ...?",
        Usage::DictGetdef => " getdef dictionary ?key ...? key default",
        Usage::DictIncr => " incr varName key ?increment?",
        Usage::DictKeys => " keys dictionary ?globPattern?",
        Usage::DictLappend => " lappend varName key ?value ...?",
        Usage::DictMap => " map {keyVarName valueVarName} dictionary script",
        Usage::DictRemove => " remove dictionary ?key ...?",
        Usage::DictReplace => " replace dictionary ?key value ...?",
        Usage::DictSet => " set varName key ?key ...? value",
        Usage::DictSize => " size dictionary",
        Usage::DictUnset => " unset varName key ?key ...?",
        Usage::DictValues => " values dictionary ?globPattern?",
        Usage::Error => " message ?errorInfo? ?errorCode?",
        Usage::Eval => " arg ?arg ...?",
        Usage::Exit => " ?returnCode?",
        Usage::Expr => " arg ?arg ...?",
        Usage::For => " start test next command",
        Usage::Foreach => " varList list ?varList list ...? command",
        Usage::Format => " formatString ?arg ...?",
        Usage::Incr => " varName ?increment?",
        Usage::Info => " subcommand ?arg ...?",
        Usage::InfoArgs => " args procName",
        Usage::InfoBody => " body procName",
        Usage::InfoComplete => " complete command",
        Usage::InfoDefault => " default procName arg varName",
        Usage::InfoExists => " exists varName",
        Usage::InfoLevel => " level",
        Usage::Join => " list ?joinString?",
        Usage::Lappend => " varName ?value ...?",
        Usage::Lassign => " list ?varName ...?",
        Usage::Lindex => " list ?index ...?",
        Usage::Linsert => " list index ?element ...?",
        Usage::Llength => " list",
        Usage::Lmap => " varList list ?varList list ...? command",
        Usage::Lpop => " varName ?index?",
        Usage::Lrange => " list first last",
        Usage::Lremove => " list ?index ...?",
        Usage::Lrepeat => " count ?value ...?",
        Usage::Lreplace => " list first last ?element ...?",
        Usage::Lreverse => " list",
        Usage::Lsearch => " ?option ...? list pattern",
        Usage::Lseq => " n ??op? n ??by? n??",
        Usage::Lset => " varName ?index ...? newValue",
        Usage::Lsort => " ?option ...? list",
        Usage::Proc => " name args body",
        Usage::Puts => " ?-nonewline? ?channelId? string",
        Usage::Scan => " string format ?varName ...?",
        Usage::Set => " varName ?newValue?",
        Usage::Split => " string ?splitChars?",
        Usage::String => " subcommand ?arg ...?",
        Usage::StringCompare => " compare ?-nocase? ?-length int? string1 string2",
        Usage::StringEqual => " equal ?-nocase? ?-length int? string1 string2",
        Usage::StringFirst => " first needle haystack ?startIndex?",
        Usage::StringIndex => " index string charIndex",
        Usage::StringInsert => " insert string index insertString",
        Usage::StringIs => " is class ?-strict? string",
        Usage::StringLast => " last needle haystack ?lastIndex?",
        Usage::StringLength => " length string",
        Usage::StringMap => " map ?-nocase? mapping string",
        Usage::StringMatch => " match ?-nocase? pattern string",
        Usage::StringRange => " range string first last",
        Usage::StringRepeat => " repeat string count",
        Usage::StringReplace => " replace string first last ?string?",
        Usage::StringReverse => " reverse string",
        Usage::StringTolower => " tolower string",
        Usage::StringToupper => " toupper string",
        Usage::StringTrim => " trim string ?chars?",
        Usage::StringTrimleft => " trimleft string ?chars?",
        Usage::StringTrimright => " trimright string ?chars?",
        Usage::Switch => " ?option ...? string ?pattern body ...? ?default body?",
        Usage::Throw => " type message",
        Usage::Try => " body ?handler ...? ?finally script?",
        Usage::Uplevel => " ?level? command ?arg ...?",
        Usage::Upvar => " ?level? otherVar localVar ?otherVar localVar ...?",
        Usage::While => " test command",
    }
}

/// What a command's usage has behind the word of the call, with the space between the two; it is
/// the second part of the message `WrongArguments`.
pub fn usage_text(usage: Usage) -> &'static str
    ensures text { result.now ≡ usage_of usage }
    ensures ascii { IsTrue (list_all is_ascii result.now) }
    ensures points { chars result.now ≡ usage_of usage }
    ensures utf8 { IsText result.now }
{
    usage_line(usage)
}
