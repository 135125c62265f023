// The cells that names stand for in the current frame.
ghost use Rattle.std.specs.Prelude.{◌≡◌, ℕ, ◌||◌, not, nat_eq, Ok, IsTrue, IfOk, IfErr, OnOk, OnErr};
ghost use Rattle.tclv_text.specs.Texts.{IsText};
ghost use Rattle.tclv_reply.specs.Names.{naming, shape_of};
ghost use Rattle.tclv_vars.specs.Sound.{Sound};
ghost use Rattle.tclv_vars.specs.Table.{Table, has_value, Refuses};
ghost use Rattle.tclv_vars.specs.Undo.{missing, FreshWrite};
ghost use Rattle.tclv_engine.specs.Names as spec;

use tclv_reply::NameShape;
use tclv_vars::{Missing, Place, Root, VarFault, Vars};

/// The cell of what a name names, given with its shape. Refuses as `tclv_vars::Vars::read` does. Takes
/// no memory.
pub fn read_named(vars: &Vars, name: &[u8], shape: NameShape) -> Result<u64, VarFault>
    requires name { IsText name.now }
    requires shape { shape ≡ shape_of name.now }
    ensures answer { result ≡ spec.read_named vars.now (naming name.now) }
    ensures value { IfOk result (λ c. IsTrue (has_value vars.now c)) }
{
    vars.read(Place::Frame, shape.name(name), shape.index(name))
}

/// The cell of what a name names, given with its shape, which counts as set from then on, and whether
/// it wasn't set before. Refuses as `tclv_vars::Vars::write` does; after a refusal all is as before.
pub fn write_named(vars: &mut Vars, name: &[u8], shape: NameShape) -> Result<(u64, bool), VarFault>
    requires name { IsText name.now }
    requires shape { shape ≡ shape_of name.now }
    ensures written { IfOk result (λ p. spec.write_named vars.old (naming name.now) ≡ Ok (record { cell = p.0; fresh = p.1; after = vars.new })) }
    ensures refused { IfErr result (Refuses (spec.write_named vars.old (naming name.now))) }
    ensures same { OnErr result (vars.new ≡ vars.old) }
    ensures value { IfOk result (λ p. (c : ℕ) → has_value vars.new c ≡ (nat_eq c p.0 || has_value vars.old c)) }
    ensures fresh { IfOk result (λ p. p.1 ≡ not (has_value vars.old p.0)) }
{
    vars.write(Place::Frame, shape.name(name), shape.index(name))
}

/// Makes the local name a second name of what another name names, given with its shape, which stands
/// where the root says. Refuses as `tclv_vars::Vars::link` does; after a refusal all is as before.
pub fn link_named(
    vars: &mut Vars,
    local: &[u8],
    root: Root,
    other: &[u8],
    shape: NameShape,
) -> Result<(), VarFault>
    requires local { IsText local.now }
    requires other { IsText other.now }
    requires shape { shape ≡ shape_of other.now }
    ensures linked { OnOk result (spec.link_named vars.old local.now root (naming other.now) ≡ Ok vars.new) }
    ensures refused { IfErr result (Refuses (spec.link_named vars.old local.now root (naming other.now))) }
    ensures same { OnErr result (vars.new ≡ vars.old) }
    ensures values { (c : ℕ) → has_value vars.new c ≡ has_value vars.old c }
{
    vars.link(local, root, shape.name(other), shape.index(other))
}

/// What isn't there of what a name names, given with its shape. Takes no memory.
pub fn missing_named(vars: &Vars, name: &[u8], shape: NameShape) -> Missing
    requires name { IsText name.now }
    requires shape { shape ≡ shape_of name.now }
    ensures answer { result ≡ missing vars.now Place.Frame (naming name.now).name (naming name.now).index }
    ensures sound { Sound vars.now }
{
    vars.missing(Place::Frame, shape.name(name), shape.index(name))
}

/// Takes the last write back, of what a name names, given with its shape. As
/// `tclv_vars::Vars::take_back`.
pub fn take_back_named(vars: &mut Vars, name: &[u8], shape: NameShape, lacked: Missing)
    requires name { IsText name.now }
    requires shape { shape ≡ shape_of name.now }
    requires wrote { (t : Table) × FreshWrite t Place.Frame (naming name.now).name (naming name.now).index lacked vars.old }
    ensures before { (t : Table) → FreshWrite t Place.Frame (naming name.now).name (naming name.now).index lacked vars.old → vars.new ≡ t }
{
    vars.take_back(Place::Frame, shape.name(name), shape.index(name), lacked);
}
