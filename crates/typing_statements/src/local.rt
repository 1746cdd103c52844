//! Declarations of a body (C11 6.7).

ghost use Rattle.std.specs.Prelude.{◌≡◌, true, IfOk, OnOk};
ghost use Rattle.typing_rules.specs.Checked.{Gives};
ghost use Rattle.typing_rules.specs.Statements as rules;
ghost use Rattle.typing_rules.specs.TreesOfDeclarations as trees;
ghost use Rattle.typing_laws.specs.SmallTypes.{IsSmallType};
ghost use Rattle.typing_declarators.specs.Types.{is_specified};
ghost use Rattle.typing_statements.specs.Locals as locals;
ghost use Rattle.typing_statements.specs.Locals.{MayBeLocal};
ghost use Rattle.typing_statements.specs.Making.{Makes, MakesMore};
ghost use Rattle.typing_statements.specs.Points.{outside, around, frame_at, IsReady};

use crate::body::Body;
use crate::made::{made, push};
use c_grammar::declaration::{Declarator, Declared};
use c_grammar::statement::Local;
use c_grammar::types::Specifier;
use c_words::chain::Chain;
use c_words::word::Leaf;
use step_meaning::{CType, Stmt, StmtsPart};
use typing_declarators::declared_name::declared_name;
use typing_declarators::element_count::element_count;
use typing_declarators::name::{DeclaredName, declared_type};
use typing_initialisers::locals::push_inits;
use typing_operands::part::copied;
use typing_rules::fault::TypeFault;
use typing_rules::operand::TypePart;
use typing_scopes::known::Known;

#[tactic(auto, unfolding(typing_rules::specs::TreesOfDeclarations::declared))]
fn declarator_of(tree: &Declared) -> &Declarator
    ensures { (trees.declared tree.now).declarator ≡ trees.declarator result.now }
{
    match tree {
        Declared::Plain(declarator) => declarator,
        Declared::Initialised(declarator, _, _) => declarator,
    }
}

/// What the rules see of the name of a local.
#[tactic(auto, unfolding(crate::specs::Points::outside, crate::specs::Points::around, crate::specs::Points::frame_at))]
fn local_name(known: &Known<'_>, name: &Leaf) -> DeclaredName
    ensures { result ≡ locals.local_name (around (outside known.now)) name.now (frame_at known.now) }
{
    let bytes = known.bytes(name);
    DeclaredName {
        place: name.token.place,
        again: known.is_in_block(bytes),
        wrong: false,
        is_value: false,
        reserved: known.is_reserved(bytes),
    }
}

impl<'b> Body<'b> {
    /// The type of a local, whose name keeps the rules.
    fn local_type(
        self,
        known: &Known<'_>,
        base: &CType,
        tree: &Declared,
    ) -> Result<TypePart, TypeFault>
        requires ready { IsReady known.now }
        requires base { is_specified base.now ≡ true }
        ensures gives { Gives (locals.local_type (around (outside known.now)) self.entry.returns.now base.now (trees.declared tree.now) (frame_at known.now)) result }
        ensures may { IfOk result (λ t. MayBeLocal (around (outside known.now)) (trees.declared tree.now).declarator.name t (frame_at known.now)) }
    {
        let declarator = declarator_of(tree);
        let name = local_name(known, &declared_name(declarator));
        declared_type(
            self.alloc,
            known,
            name,
            element_count(tree),
            declarator,
            base,
        )
    }

    /// The next local, known from here on, and its number (C11 6.2.1, 7).
    fn add_local<'t>(
        self,
        known: &mut Known<'t>,
        name: &Leaf,
        t: TypePart,
    ) -> Result<u32, TypeFault>
        requires ready { IsReady known.old }
        requires may { MayBeLocal (around (outside known.old)) name.now t (frame_at known.old) }
        ensures makes { Makes (rules.declared_as (around (outside known.old)) self.entry.returns.now name.now t (frame_at known.old)) result (frame_at known.new) }
        ensures same { OnOk result (outside known.new ≡ outside known.old) }
        ensures ready { OnOk result (IsReady known.new) }
    {
        let bytes = known.bytes(name);
        known.add_local(self.alloc, bytes, t)
    }

    /// The statements that initialise the local with this number and type.
    fn initialised(
        self,
        known: &Known<'_>,
        index: u32,
        t: &CType,
        tree: &Declared,
        all: &mut StmtsPart,
    ) -> Result<(), TypeFault>
        requires ready { IsReady known.now }
        requires small { IsSmallType (around (outside known.now)).layouts t.now }
        ensures { MakesMore (rules.initialised (around (outside known.now)) self.entry.returns.now index t.now (trees.declared tree.now).initialiser (frame_at known.now)) all.old all.new result (frame_at known.now) }
    {
        match tree {
            Declared::Plain(_) => {
                let s = made(self.alloc, Stmt::Empty)?;
                push(all, s)
            }
            Declared::Initialised(_, _, init) => {
                push_inits(self.alloc, known, index, t, init, all)
            }
        }
    }

    /// A local of this type.
    fn declare_as<'t>(
        self,
        known: &mut Known<'t>,
        t: TypePart,
        tree: &Declared,
        all: &mut StmtsPart,
    ) -> Result<(), TypeFault>
        requires ready { IsReady known.old }
        requires may { MayBeLocal (around (outside known.old)) (trees.declared tree.now).declarator.name t (frame_at known.old) }
        ensures makes { MakesMore (locals.local_of (around (outside known.old)) self.entry.returns.now (trees.declared tree.now) t (frame_at known.old)) all.old all.new result (frame_at known.new) }
        ensures same { OnOk result (outside known.new ≡ outside known.old) }
        ensures ready { OnOk result (IsReady known.new) }
    {
        let again = copied(self.alloc, t.get())?;
        let name = declared_name(declarator_of(tree));
        let index = self.add_local(known, &name, again)?;
        self.initialised(known, index, t.get(), tree, all)
    }

    /// A local and its initialiser (C11 6.7.6, 6.7.9).
    fn declare_one<'t>(
        self,
        known: &mut Known<'t>,
        base: &CType,
        tree: &Declared,
        all: &mut StmtsPart,
    ) -> Result<(), TypeFault>
        requires ready { IsReady known.old }
        requires base { is_specified base.now ≡ true }
        ensures makes { MakesMore (rules.declare_one (around (outside known.old)) self.entry.returns.now base.now (trees.declared tree.now) (frame_at known.old)) all.old all.new result (frame_at known.new) }
        ensures same { OnOk result (outside known.new ≡ outside known.old) }
        ensures ready { OnOk result (IsReady known.new) }
    {
        let t = self.local_type(known, base, tree)?;
        self.declare_as(known, t, tree, all)
    }

    /// All that a declaration declares, in order.
    fn declare_all<'t>(
        self,
        known: &mut Known<'t>,
        base: &CType,
        trees: &Chain<Declared>,
        all: &mut StmtsPart,
    ) -> Result<(), TypeFault>
        requires ready { IsReady known.old }
        requires base { is_specified base.now ≡ true }
        ensures makes { MakesMore (rules.declare_all (around (outside known.old)) self.entry.returns.now base.now (locals.declared_in trees.now) (frame_at known.old)) all.old all.new result (frame_at known.new) }
        ensures same { OnOk result (outside known.new ≡ outside known.old) }
        ensures ready { OnOk result (IsReady known.new) }
    {
        self.declare_one(known, base, &trees.first, all)?;
        for link in trees.rest.as_slice() {
            self.declare_one(known, base, &link.operand, all)?;
        }
        Ok(())
    }

    fn declare_spelled<'t>(
        self,
        known: &mut Known<'t>,
        specifier: &Specifier,
        trees: &Chain<Declared>,
        all: &mut StmtsPart,
    ) -> Result<(), TypeFault>
        requires { IsReady known.old }
        ensures makes { MakesMore (rules.declare (around (outside known.old)) self.entry.returns.now (locals.spelled_local specifier.now trees.now) (frame_at known.old)) all.old all.new result (frame_at known.new) }
        ensures same { OnOk result (outside known.new ≡ outside known.old) }
        ensures ready { OnOk result (IsReady known.new) }
    {
        let base = known.specified(self.alloc, specifier)?;
        self.declare_all(known, base.get(), trees, all)
    }

    /// A declaration of a body; its statements come after those there are.
    #[tactic(auto, unfolding(typing_rules::specs::TreesOfDeclarations::local))]
    pub fn declare<'t>(
        self,
        known: &mut Known<'t>,
        tree: &Local,
        all: &mut StmtsPart,
    ) -> Result<(), TypeFault>
        requires { IsReady known.old }
        ensures makes { MakesMore (rules.declare (around (outside known.old)) self.entry.returns.now (trees.local tree.now) (frame_at known.old)) all.old all.new result (frame_at known.new) }
        ensures same { OnOk result (outside known.new ≡ outside known.old) }
        ensures ready { OnOk result (IsReady known.new) }
    {
        match tree {
            Local::Variables(_, base, trees, _) => {
                self.declare_spelled(known, &base.specifier, trees, all)
            }
            Local::Registers(_, base, trees, _) => {
                self.declare_spelled(known, &base.specifier, trees, all)
            }
        }
    }

    /// A declaration of a body.
    #[tactic(auto, using(crate::proofs::Outcomes::behind_nothing))]
    pub fn declared<'t>(self, known: &mut Known<'t>, tree: &Local) -> Result<StmtsPart, TypeFault>
        requires { IsReady known.old }
        ensures makes { Makes (rules.declare (around (outside known.old)) self.entry.returns.now (trees.local tree.now) (frame_at known.old)) result (frame_at known.new) }
        ensures same { OnOk result (outside known.new ≡ outside known.old) }
        ensures ready { OnOk result (IsReady known.new) }
    {
        let mut all = StmtsPart::empty(self.alloc);
        self.declare(known, tree, &mut all)?;
        Ok(all)
    }
}
