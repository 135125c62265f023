// The words of the command line.
ghost use Rattle.std.specs.Prelude.{◌≡◌, map, string_bytes};
ghost use Rattle.std.specs.Char.{is_ascii_digit};
ghost use Rattle.std.specs.List.{list_all};
ghost use Rattle.std.specs.Option.{option_map};
ghost use Rattle.tclv_shell.specs.Words.{is_budget, budget_of, is_file, with_budget, invocation_of};
ghost use Rattle.tclv_shell.specs.Lent.{lent};

/// The greatest budget.
const MOST_BUDGET: u64 = (1 << 63) - 1;

/// The budget where the words name none.
const DEFAULT_BUDGET: u64 = 1_000_000_000_000;

/// The most digits that a budget has.
const MOST_DIGITS: usize = 19;

/// What the words of a command line ask for.
#[derive(Clone, Copy)]
pub struct Invocation<'a> {
    /// How many units the script may take.
    pub budget: u64,
    /// The name of the script file.
    pub file: &'a str,
    /// The words behind it.
    pub args: &'a [String],
}

fn has_digits(word: &[u8]) -> bool
    ensures { result ≡ list_all is_ascii_digit word.now }
{
    word.iter().all(|byte| byte.is_ascii_digit())
}

fn is_budget(word: &[u8]) -> bool
    ensures { result ≡ is_budget word.now }
{
    !word.is_empty() && word.len() <= MOST_DIGITS && has_digits(word)
}

// The number of a budget, where it isn't too great.
#[tactic(auto, using(crate::proofs::Budgets::parsed), unfolding(crate::specs::Words::most_budget))]
fn budget_of(word: &str) -> Option<u64>
    ensures { result ≡ budget_of word.now }
{
    if !is_budget(word.as_bytes()) {
        return None;
    }
    match word.parse::<u64>() {
        Ok(budget) if budget <= MOST_BUDGET => Some(budget),
        _ => None,
    }
}

fn is_file(word: &[u8]) -> bool
    ensures { result ≡ is_file word.now }
{
    !matches!(word, [] | [b'-', ..])
}

// A file and its arguments.
fn with_budget(budget: u64, words: &[String]) -> Option<Invocation<'_>>
    ensures { option_map lent result ≡ with_budget budget (map string_bytes words.now) }
{
    match words {
        [file, args @ ..] if is_file(file.as_bytes()) => Some(Invocation {
            budget,
            file: file.as_str(),
            args,
        }),
        _ => None,
    }
}

/// Reads the words of a command line, which come without the program's name: a budget or none, a
/// script file and its arguments.
///
/// A budget is the word `-budget` and a number of 1 to 19 decimal digits, at most 2^63-1; without
/// one the budget is 10^12. The name of a file isn't empty and doesn't begin with `-`. The words
/// behind it are arguments, whatever they are. Gives nothing exactly where the words have another
/// form.
#[tactic(auto, unfolding(crate::specs::Words::default_budget))]
pub fn read_words(words: &[String]) -> Option<Invocation<'_>>
    ensures { option_map lent result ≡ invocation_of (map string_bytes words.now) }
{
    match words {
        [word, number, rest @ ..] if word.as_bytes() == b"-budget".as_slice() => {
            with_budget(budget_of(number.as_str())?, rest)
        }
        _ => with_budget(DEFAULT_BUDGET, words),
    }
}
