//! The rules on the name of a declared function (C11 6.7, 4; 6.9, 3; 6.9.1).

ghost use Rattle.std.specs.Prelude.{◌≡◌};
ghost use Rattle.step_meaning.specs.ExpressionTypes.{is_void as void_type, has_body as is_defined, parameter_types};
ghost use Rattle.typing_rules.specs.Checked.{Gives};
ghost use Rattle.typing_rules.specs.Declarations.{is_struct as struct_type};
ghost use Rattle.typing_rules.specs.Functions as rules;
ghost use Rattle.typing_scopes.specs.Known.{program};
ghost use Rattle.typing_functions.specs.Parameters.{IsInFunction};
ghost use Rattle.typing_functions.specs.Signatures as signatures;
ghost use Rattle.typing_functions.specs.Signatures.{is_int_type};

use c_words::word::Leaf;
use core_types::same_type;
use step_meaning::{CType, Declared, Function, IntKind};
use typing_declarators::name::is_complete_in;
use typing_rules::fault::TypeFault;
use typing_scopes::known::Known;

/// What a declaration says of a function, besides its name and parameters.
#[derive(Clone, Copy)]
pub struct Signature<'s> {
    pub returns: &'s CType,
    /// Whether it has a body here.
    pub defined: bool,
}

/// Whether the name is that of a function of the library.
fn is_library(name: &[u8]) -> bool
    ensures { result ≡ rules.is_library name.now }
{
    name == "getchar".as_bytes()
        || name == "putchar".as_bytes()
        || name == "malloc".as_bytes()
        || name == "free".as_bytes()
}

/// Whether it is a prototype of `malloc` or `free`, in which alone a pointer to `void` is declared.
pub fn declares_allocation(name: &[u8], defined: bool) -> bool
    ensures { result ≡ rules.declares_allocation name.now defined }
{
    !defined && (name == "malloc".as_bytes() || name == "free".as_bytes())
}

fn is_void(t: &CType) -> bool
    ensures { result ≡ void_type t.now }
{
    matches!(t, CType::Void)
}

#[tactic(auto, using(crate::proofs::Pointers::int_types))]
fn is_int(t: &CType) -> bool
    ensures { result ≡ is_int_type t.now }
{
    match t {
        CType::Int(kind) => *kind == IntKind::Int,
        CType::Void | CType::Pointer(_) | CType::Array(_, _) | CType::Struct(_) => false,
    }
}

#[tactic(auto, using(crate::proofs::Pointers::pointers_to_void))]
fn is_void_pointer(t: &CType) -> bool
    ensures { result ≡ rules.is_void_pointer t.now }
{
    match t {
        CType::Pointer(to) => is_void(to.get()),
        CType::Void | CType::Int(_) | CType::Array(_, _) | CType::Struct(_) => false,
    }
}

fn is_struct(t: &CType) -> bool
    ensures { result ≡ struct_type t.now }
{
    matches!(t, CType::Struct(_))
}

/// Whether the parameters have the same types.
fn are_same(a: &[Declared], b: &[Declared]) -> bool
    ensures { result ≡ rules.are_same (rules.types_of a.now) (rules.types_of b.now) }
{
    if a.len() != b.len() {
        return false;
    }
    for index in 0..a.len() {
        if !same_type(&a[index].ctype, &b[index].ctype) {
            return false;
        }
    }
    true
}

/// The parameters of a function.
fn parameters_of(function: &Function) -> &[Declared]
    ensures { parameter_types function.now ≡ rules.types_of result.now }
{
    let locals = function.locals.as_slice();
    let count = (function.params as usize).min(locals.len());
    &locals[..count]
}

fn has_body(function: &Function) -> bool
    ensures { result ≡ is_defined function.now }
{
    function.body.is_some()
}

/// Whether the function has another type.
fn differs(function: &Function, returns: &CType, parameters: &[Declared]) -> bool
    ensures { result ≡ signatures.differs function.now returns.now parameters.now }
{
    !(same_type(&function.result, returns) && are_same(parameters_of(function), parameters))
}

/// Whether a declaration beside this earlier one has another type or a second body.
fn contradicts(function: &Function, signature: Signature<'_>, parameters: &[Declared]) -> bool
    ensures { result ≡ rules.contradicts function.now signature.entry.returns.now parameters.now signature.entry.defined }
{
    differs(function, signature.returns, parameters)
        || (signature.defined
            && (has_body(function) || is_library(function.name.as_str().as_bytes())))
}

/// Whether an earlier declaration of the name contradicts this one.
fn contradicts_earlier(known: &Known<'_>, name: &[u8], signature: Signature<'_>) -> bool
    requires { IsInFunction known.now }
    ensures { result ≡ rules.contradicts_earlier (program known.now) name.now signature.entry.returns.now known.now.locals signature.entry.defined }
{
    match known.function_number(name) {
        None => false,
        Some(number) => contradicts(
            &known.functions.as_slice()[number as usize],
            signature,
            known.locals.as_slice(),
        ),
    }
}

/// Whether it is a function without parameters that gives an `int`.
#[tactic(auto, using(crate::proofs::Signatures::same_none))]
fn is_main_type(returns: &CType, parameters: &[Declared]) -> bool
    ensures { result ≡ signatures.is_main_type returns.now parameters.now }
{
    is_int(returns) && parameters.is_empty()
}

/// Whether it is a `main` other than `int main(void)` (C11 5.1.2.2.1).
fn is_other_main(name: &[u8], returns: &CType, parameters: &[Declared]) -> bool
    ensures { result ≡ rules.is_other_main name.now returns.now parameters.now }
{
    name == "main".as_bytes() && !is_main_type(returns, parameters)
}

/// Whether the type can't be that of a result.
fn is_wrong_result(known: &Known<'_>, allocation: bool, returns: &CType) -> bool
    requires { IsInFunction known.now }
    ensures { result ≡ rules.is_wrong_result (program known.now) allocation returns.now }
{
    !(is_void(returns)
        || is_complete_in(known, returns)
        || (allocation && is_void_pointer(returns)))
}

/// Whether a rule on its type is broken.
fn is_wrong(known: &Known<'_>, name: &[u8], signature: Signature<'_>) -> bool
    requires { IsInFunction known.now }
    ensures { result ≡ signatures.is_wrong (program known.now) name.now signature.entry.returns.now known.now.locals signature.entry.defined }
{
    is_other_main(name, signature.returns, known.locals.as_slice())
        || is_wrong_result(
            known,
            declares_allocation(name, signature.defined),
            signature.returns,
        )
}

/// Whether the name has another declaration that this one can't stand beside.
#[tactic(auto, using(typing_files::proofs::Names::declared_turned))]
fn is_again(known: &Known<'_>, name: &[u8], signature: Signature<'_>) -> bool
    requires { IsInFunction known.now }
    ensures { result ≡ signatures.is_again (program known.now) name.now signature.entry.returns.now known.now.locals signature.entry.defined }
{
    known.globals.has(name) || contradicts_earlier(known, name, signature)
}

/// The rules on the name of a function whose parameters are known, in the order of their numbers.
#[tactic(auto, unfolding(typing_rules::specs::Checked::none_of, typing_rules::specs::Functions::declarable_function))]
pub fn declarable_function(
    known: &Known<'_>,
    name: &Leaf,
    signature: Signature<'_>,
) -> Result<(), TypeFault>
    requires { IsInFunction known.now }
    ensures { Gives (rules.declarable_function (program known.now) name.now signature.entry.returns.now known.now.locals signature.entry.defined) result }
{
    let bytes = known.bytes(name);
    if is_again(known, bytes, signature) {
        Err(TypeFault::Redeclared(name.token.place))
    } else if is_wrong(known, bytes, signature) {
        Err(TypeFault::Mismatch(name.token.place))
    } else if is_struct(signature.returns) {
        Err(TypeFault::StructValue(name.token.place))
    } else if known.is_reserved(bytes) {
        Err(TypeFault::Reserved(name.token.place))
    } else {
        Ok(())
    }
}
