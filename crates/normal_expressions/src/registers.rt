//! The registers of a function, in the order in which they are taken.

ghost use Rattle.std.specs.Prelude.{◌≡◌, [], ◌∷◌, ◌++◌, suc, IfOk};
ghost use Rattle.normal_trees.specs.Operands.{register_type, operand_of};
ghost use Rattle.normal_expressions.specs.Additions.{Adds, taking, types_of};

use normal_trees::{Operand, RegisterType, set_to};
use std::alloc::{AllocError, Global};
use step_meaning::{ExprPart, StmtsPart};

/// The registers that are taken so far.
pub struct Registers<'a> {
    /// Their types, in the order of their numbers.
    pub types: Vec<RegisterType<'a>>,
    /// The number of the next one.
    pub next: u32,
}

impl Drop for Registers<'_> {
    fn drop(self) {
        let Registers {
            types: _types,
            next: _next,
        } = self;
    }
}

impl<'a> Registers<'a> {
    /// No registers yet. The first one has this number.
    #[tactic(auto, unfolding(crate::specs::Additions::types_of))]
    pub fn starting(alloc: Global, next: u32) -> Registers<'a>
        ensures types { types_of result ≡ [] }
        ensures next { result.next ≡ next }
    {
        Registers {
            types: Vec::new(alloc),
            next,
        }
    }

    /// One more register, of this type; the answer is its number. An error is want of memory, or of numbers, of which there
    /// are 2^32 - 1.
    #[tactic(auto, unfolding(crate::specs::Additions::types_of), using(crate::proofs::Lists::map_join))]
    pub fn take(&mut self, ctype: RegisterType<'a>) -> Result<u32, AllocError>
        ensures index { IfOk result (λ i. i ≡ self.old.next) }
        ensures next { IfOk result (λ i. self.new.next ≡ suc self.old.next) }
        ensures types { IfOk result (λ i. types_of self.new ≡ types_of self.old ++ register_type ctype.entry ∷ []) }
    {
        let index = self.next;
        match index.checked_add(1) {
            None => Err(AllocError),
            Some(next) => {
                self.types.push(ctype)?;
                self.next = next;
                Ok(index)
            }
        }
    }
}

/// One more register takes the expression.
pub fn set<'a>(
    alloc: Global,
    ctype: RegisterType<'a>,
    value: ExprPart,
    code: &mut StmtsPart,
    registers: &mut Registers<'a>,
) -> Result<Operand<'a>, AllocError>
    ensures { IfOk result (λ a. Adds code.old registers.old (taking (register_type ctype.entry) value registers.old.next) code.new registers.new (operand_of a)) }
{
    let index = registers.take(ctype)?;
    set_to(alloc, index, ctype, value, code)?;
    Ok(Operand::Held(index, ctype))
}
