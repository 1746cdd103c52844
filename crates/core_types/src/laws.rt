ghost use Rattle.core_types.specs.Laws.{SameTypes, EarlierCells, MemberTypes};

/// Types that are the same are equal, and each is the same as itself.
pub fn same_types()
    ensures { SameTypes }
{}

/// More structs change no cells of a type that keeps the rules without them, and it keeps the rules with them.
pub fn earlier_cells()
    ensures { EarlierCells }
{}

/// The types of the members of a program's structs keep the rules, each has a cell, and a member's offset tells its type.
pub fn member_types()
    ensures { MemberTypes }
{}
