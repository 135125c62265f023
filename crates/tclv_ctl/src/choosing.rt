// Which clause of a plan of `switch` is chosen.
ghost use Rattle.std.specs.Prelude.{◌≡◌, ◌<◌, ◌||◌, ◌&&◌, [], length, codes, IfOk, IfSome, slice_index_or};
ghost use Rattle.std.specs.List.{All};
ghost use Rattle.std.specs.Option.{option_map};
ghost use Rattle.std.specs.Str.{chars, bytes_eq};
ghost use Rattle.tclv_text.specs.Texts.{IsText};
ghost use Rattle.tclv_value.specs.Changes.{KeepsTexts};
ghost use Rattle.tclv_reply.specs.Comparing.{fits_pattern};
ghost use Rattle.tclv_ctl.specs.Switching.{chosen_by, IsInside};

use crate::switching::SwitchPlan;
use crate::words::is_word;
use tclv_reply::{fits_pattern, make_word, word_at};
use tclv_text::NoMemory;
use tclv_value::Store;

// Whether a text is `default`.
fn is_default(text: &[u8]) -> bool
    requires { IsText text.now }
    ensures { result ≡ bytes_eq (chars text.now) (codes "default") }
{
    is_word(text, b"default")
}

// Whether the clause of a plan with this pattern is chosen where none before it is.
fn is_chosen(
    store: &mut Store,
    plan: &SwitchPlan,
    pattern: usize,
    last: bool,
) -> Result<bool, NoMemory>
    requires pattern { pattern < length store.old.stack }
    requires string { plan.now.string < length store.old.stack }
    ensures says { IfOk result (λ x. x ≡
        ((last && bytes_eq (slice_index_or store.old.stack pattern []) (codes "default"))
        || fits_pattern plan.now.matching plan.now.nocase (slice_index_or store.old.stack pattern [])
        (slice_index_or store.old.stack plan.now.string []))) }
    ensures kept { KeepsTexts store.old store.new }
{
    make_word(store, pattern)?;
    make_word(store, plan.string)?;
    let text = word_at(store, pattern);
    if last && is_default(text) {
        return Ok(true);
    }
    Ok(fits_pattern(
        plan.matching,
        plan.nocase,
        text,
        word_at(store, plan.string),
    ))
}

/// Where the body is that a plan chooses: that of the first clause whose pattern fits the string,
/// where `default` as the last pattern fits each. `None` where no clause is chosen. The places of the
/// plan are there, and no text changes. (Tcl: switch(n).)
pub fn chosen_body(store: &mut Store, plan: &SwitchPlan) -> Result<Option<usize>, NoMemory>
    requires string { plan.now.string < length store.old.stack }
    requires clauses { All (IsInside store.old.stack) plan.now.clauses.items }
    ensures chosen { IfOk result (λ found. option_map (λ body. slice_index_or store.old.stack body []) found
        ≡ chosen_by plan.now store.old.stack) }
    ensures inside { IfOk result (λ found. IfSome found (λ body. body < length store.old.stack)) }
    ensures kept { KeepsTexts store.old store.new }
{
    let clauses = plan.clauses.as_slice();
    for k in 0..clauses.len() {
        let clause = clauses[k];
        if is_chosen(store, plan, clause.pattern, k + 1 == clauses.len())? {
            return Ok(Some(clause.body));
        }
    }
    Ok(None)
}
