// The options of outcomes.
ghost use Rattle.std.specs.Prelude.{◌≡◌, IfOk};
ghost use Rattle.std.specs.Str.{chars};
ghost use Rattle.tclv_text.specs.Texts.{IsText};
ghost use Rattle.tclv_engine.specs.Answers as answers;
ghost use Rattle.tclv_engine.specs.Results.{option, code_text, code_options, carried, error_options};
ghost use Rattle.tclv_control.specs.OutcomeSteps as outcomes;

use std::alloc::Global;
use tclv_engine::{Carried, Ended, Leaving};
use tclv_model::{Code, Options, Pair};
use tclv_text::{NoMemory, Text, whole_text};

/// An option with its name and its value.
pub fn option_of(alloc: Global, key: &str, value: &[u8]) -> Result<Pair, NoMemory>
    requires { IsText value.now }
    ensures { IfOk result (λ pair. pair ≡ option (chars key.now) (chars value.now)) }
{
    let key = Vec::from_slice(alloc, key.as_bytes())?;
    let value = Vec::from_slice(alloc, value)?;
    Ok(Pair {
        key: Text::new(key),
        value: Text::new(value),
    })
}

/// The number of a code, as a text.
pub fn number_text(alloc: Global, code: Code) -> Result<Text, NoMemory>
    ensures { IfOk result (λ text. text ≡ code_text code) }
{
    let mut text = Vec::new(alloc);
    whole_text(i64::from(code.number()), &mut text)?;
    Ok(Text::new(text))
}

// The options of a code, which has none of its own.
fn code_options(alloc: Global, code: Code) -> Result<Options, NoMemory>
    ensures { IfOk result (λ options. options ≡ code_options (code_text code)) }
{
    let number = number_text(alloc, code)?;
    let mut options = Options::new(alloc);
    options.push(option_of(alloc, "-code", number.bytes())?)?;
    options.push(option_of(alloc, "-level", b"0")?)?;
    Ok(options)
}

/// The options that a code carries.
pub fn carried_options(alloc: Global, code: Code, kept: Carried) -> Result<Options, NoMemory>
    ensures { IfOk result (λ options. options ≡ carried code kept) }
{
    match kept {
        Carried::Plain => code_options(alloc, code),
        Carried::Kept(options) => Ok(options),
    }
}

// The options of an error.
fn error_options(alloc: Global, errorcode: &Text) -> Result<Options, NoMemory>
    ensures { IfOk result (λ options. options ≡ error_options errorcode.now) }
{
    let mut options = Options::new(alloc);
    options.push(option_of(alloc, "-code", b"1")?)?;
    options.push(option_of(alloc, "-level", b"0")?)?;
    options.push(option_of(alloc, "-errorcode", errorcode.bytes())?)?;
    Ok(options)
}

/// The code of what isn't ok.
pub fn code_of(leaving: &Leaving) -> Code
    ensures { result ≡ answers.code_of leaving.now }
{
    match leaving {
        Leaving::Error(_) => Code::Error,
        Leaving::Other(code, _) => *code,
    }
}

/// Its options.
pub fn options_of(alloc: Global, leaving: Leaving) -> Result<Options, NoMemory>
    ensures { IfOk result (λ options. options ≡ answers.options_of leaving) }
{
    match leaving {
        Leaving::Error(errorcode) => error_options(alloc, &errorcode),
        Leaving::Other(code, kept) => carried_options(alloc, code, kept),
    }
}

/// The code that a script ended with.
pub fn code_ended(ended: &Ended) -> Code
    ensures { result ≡ outcomes.code_ended ended.now }
{
    match ended {
        Ended::Ok(_) => Code::Ok,
        Ended::Left(leaving) => code_of(leaving),
    }
}

/// The options that a script ended with.
pub fn options_ended(alloc: Global, ended: Ended) -> Result<Options, NoMemory>
    ensures { IfOk result (λ options. options ≡ outcomes.options_ended ended) }
{
    match ended {
        Ended::Ok(kept) => carried_options(alloc, Code::Ok, kept),
        Ended::Left(leaving) => options_of(alloc, leaving),
    }
}
