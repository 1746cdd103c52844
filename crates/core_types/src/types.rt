ghost use Rattle.std.specs.Prelude.{◌≡◌};
ghost use Rattle.step_meaning.specs.Types.{same_type as are_same};

use step_meaning::CType;

/// Whether two types are the same (C11 6.2.7, 1, where each struct is defined once).
#[tactic(auto, using(crate::proofs::TypeEquations::same_types))]
pub fn same_type(a: &CType, b: &CType) -> bool
    ensures { result ≡ are_same a.now b.now }
{
    match a {
        CType::Void => match b {
            CType::Void => true,
            CType::Int(_) | CType::Pointer(_) | CType::Array(_, _) | CType::Struct(_) => false,
        },
        CType::Int(k) => match b {
            CType::Int(l) => k == l,
            CType::Void | CType::Pointer(_) | CType::Array(_, _) | CType::Struct(_) => false,
        },
        CType::Pointer(t) => match b {
            CType::Pointer(u) => same_type(t.get(), u.get()),
            CType::Void | CType::Int(_) | CType::Array(_, _) | CType::Struct(_) => false,
        },
        CType::Array(t, n) => match b {
            CType::Array(u, m) => *n == *m && same_type(t.get(), u.get()),
            CType::Void | CType::Int(_) | CType::Pointer(_) | CType::Struct(_) => false,
        },
        CType::Struct(n) => match b {
            CType::Struct(m) => *n == *m,
            CType::Void | CType::Int(_) | CType::Pointer(_) | CType::Array(_, _) => false,
        },
    }
}
