// Procedures, as values that calls share.
ghost use Rattle.std.specs.Prelude.{◌≡◌};
ghost use Rattle.tclv_parse.specs.Grammar.{commands};

use std::marker::Model;
use std::rc::Rc;
use tclv_parse::Script;
use tclv_text::Text;

/// A parameter of a procedure. (Tcl: proc(n).)
#[derive(Drop)]
pub struct Param {
    /// The name of the variable that the argument is put in.
    pub name: Text,
    /// What the argument is where a call has no word for it.
    pub default: Option<Text>,
}

/// A procedure: its parameters from the left, whether a last parameter `args`, which is not among
/// them, takes all words that are left, its body, and the body's tree. Contracts see it as a
/// `Procedure`. (Tcl: proc(n).)
#[derive(Drop)]
pub struct ProcDef {
    params: Vec<Param>,
    rest: bool,
    body: Text,
    tree: Rc<Script>,
}

impl Model for ProcDef {
    ghost use Rattle.tclv_value.specs.Procedures.{Procedure};

    ghost Value = { Procedure };

    ghost view = { λ d. record { params = d.params.items; rest = d.rest; body = d.body } };

    ghost use Rattle.std.specs.Prelude.{◌≡◌};
    ghost use Rattle.tclv_parse.specs.Grammar.{commands};

    // the tree is that of the body's text
    ghost invariant = { λ d. d.tree.value ≡ commands d.body };
}

impl ProcDef {
    /// A procedure of these parts. The tree is that of the body's text.
    pub fn new(params: Vec<Param>, rest: bool, body: Text, tree: Rc<Script>) -> ProcDef
        requires { tree.value ≡ commands body }
        ensures params { result.params ≡ params.items }
        ensures rest { result.rest ≡ rest }
        ensures body { result.body ≡ body }
    {
        ProcDef {
            params,
            rest,
            body,
            tree,
        }
    }

    /// Lends the parameters from the left, without a last one that takes the rest.
    pub fn params(&self) -> &[Param]
        ensures { result.now ≡ self.now.params }
    {
        self.params.as_slice()
    }

    /// Whether a last parameter `args` takes the words that are left, as a list.
    pub fn has_rest(&self) -> bool
        ensures { result ≡ self.now.rest }
    {
        self.rest
    }

    /// Lends the body.
    pub fn body(&self) -> &Text
        ensures { result.now ≡ self.now.body }
    {
        &self.body
    }

    /// Lends the tree of the body.
    pub fn tree(&self) -> &Script
        ensures { result.now ≡ commands self.now.body }
    {
        &self.tree
    }
}
