//! Laws on trees that were read: what the typing laws ask of a parsed text.
#![tactic(auto)]

ghost use Rattle.reading_laws.specs.ReadTrees.{SourcesAreShallow, TreesAreParsed};

/// The tree of a text's tokens has what the laws on typing ask of a parsed text.
pub fn trees_are_parsed()
    ensures { TreesAreParsed }
{}

/// That of a source nests at most 64 deep.
pub fn sources_are_shallow()
    ensures { SourcesAreShallow }
{}
